// What the two calls change of a table by value, with the answer in numbers.
#![tactic(auto)]

ghost use Rattle.call.specs.Contract.{world, request_call, response_call};
ghost use Rattle.table_change.specs.Change.{changed};
ghost use Rattle.outcomes.specs.Contract.{Replies};

use block_state::{RequestNumbers, ResponseNumbers};
use block_table::Table;
use config::Config;
use replies::Reply;
use table_change::Change;

// A call's answer in numbers, and what it changes of the table.
#[derive(Clone, Copy)]
pub struct Outcome {
    pub reply: Reply,
    pub change: Change,
}

pub fn request<'a>(
    table: Table,
    config: Config,
    upload: &mut [u8],
    response: &'a [u8],
    numbers: RequestNumbers,
    key: &'a [u8],
    block1: &'a [u8],
    block2: &'a [u8],
    payload: &'a [u8],
) -> Outcome
    ensures { Replies config (world table upload.old response.now)
        (request_call numbers key.now block1.now block2.now payload.now)
        (world (changed config.lifetime numbers.time table result.change) upload.new response.now) result.reply }
{
    let change = request_call::request_change(
        config, table, upload, response, numbers, key, block1, block2, payload,
    );
    let answer = change.answer;
    Outcome {
        reply: replies::reply_of(answer),
        change,
    }
}

pub fn response<'a>(
    table: Table,
    config: Config,
    upload: &'a [u8],
    response: &mut [u8],
    numbers: ResponseNumbers,
    key: &'a [u8],
    head: &'a [u8],
    payload: &'a [u8],
) -> Outcome
    ensures { Replies config (world table upload.now response.old)
        (response_call numbers key.now head.now payload.now)
        (world (changed config.lifetime numbers.time table result.change) upload.now response.new) result.reply }
{
    let change = response_call::response_change(
        config, table, upload, response, numbers, key, head, payload,
    );
    let answer = change.answer;
    Outcome {
        reply: replies::reply_of(answer),
        change,
    }
}
