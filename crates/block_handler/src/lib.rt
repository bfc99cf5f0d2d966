// The block handler's calls: on a table by value and two lent memories, for any bytes and numbers.
#![tactic(auto)]

ghost use Rattle.std.specs.Prelude.{◌≡◌};
ghost use Rattle.table_change.specs.Change.{changed};
ghost use Rattle.call.specs.Contract.{world, request_call, response_call, Meant};

use block_state::{Answer, RequestNumbers, ResponseNumbers};
use block_table::Table;
use config::Config;
use table_change::Change;

// What a call leaves of the table, and what it answers.
#[derive(Clone, Copy)]
pub struct Outcome {
    pub table: Table,
    pub answer: Answer,
}

// The outcome of a call: its change is made.
fn with_change(table: Table, lifetime: u64, time: u64, change: Change) -> Outcome
    ensures { (result.table ≡ changed lifetime time table change) × (result.answer ≡ change.answer) }
{
    let answer = change.answer;
    let next = table_change::changed_table(table, lifetime, time, change);
    Outcome {
        table: next,
        answer,
    }
}

// A request, before the application sees it. The block options are given or not, and their bytes count only if they are.
pub fn intercept_request<'a>(
    config: Config,
    table: Table,
    upload: &mut [u8],
    response: &'a [u8],
    numbers: RequestNumbers,
    key: &'a [u8],
    block1: &'a [u8],
    block2: &'a [u8],
    payload: &'a [u8],
) -> Outcome
    ensures { Meant config (world table upload.old response.now)
        (request_call numbers key.now block1.now block2.now payload.now)
        (world result.table upload.new response.now) result.answer }
{
    let change = request_call::request_change(
        config, table, upload, response, numbers, key, block1, block2, payload,
    );
    with_change(table, config.lifetime, numbers.time, change)
}

// A response, before it is sent. `head` is its encoded header and options.
pub fn intercept_response<'a>(
    config: Config,
    table: Table,
    upload: &'a [u8],
    response: &mut [u8],
    numbers: ResponseNumbers,
    key: &'a [u8],
    head: &'a [u8],
    payload: &'a [u8],
) -> Outcome
    ensures { Meant config (world table upload.now response.old)
        (response_call numbers key.now head.now payload.now) (world result.table upload.now response.new) result.answer }
{
    let change = response_call::response_change(
        config, table, upload, response, numbers, key, head, payload,
    );
    with_change(table, config.lifetime, numbers.time, change)
}
