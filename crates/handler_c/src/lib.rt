// The handler for programs in C and Rust, which `handler_c_exports` exports: its calls on a table and memories that the caller owns, with answers as numbers.
#![tactic(auto)]

ghost use Rattle.std.specs.Prelude.{◌≡◌};
ghost use Rattle.block_option.specs.Option.{read_of, written, in_three};
ghost use Rattle.block_table.specs.Table.{fresh_table};
ghost use Rattle.call.specs.Contract.{world, request_call, response_call};
ghost use Rattle.replies.specs.Found.{found_in, body_in, served_head_in, chunk_in, sent_in};
ghost use Rattle.handler_c.specs.Options.{block_read};
ghost use Rattle.handler_c.specs.Contract.{Replies};

use block_option::Written;
use block_state::{Recorded, RequestNumbers, ResponseNumbers, state};
use block_table::Table;
use block_value::BlockValue;
use config::Config;
use replies::{Found, Reply};

pub fn block_handler_default_config(strict: bool, upload: usize, response: usize) -> Config
    ensures { result ≡ record { strict = strict; limit = 1152; lifetime = 120000; upload = upload; response = response } }
{
    config::default_config(strict, upload, response)
}

pub fn block_handler_fresh() -> Table
    ensures { result ≡ fresh_table }
{
    block_table::fresh()
}

// The bytes that the entries in use hold, as the table's figure says: one load.
pub fn block_handler_bytes_held(table: &Table) -> u64
    ensures { result ≡ table.now.held }
{
    table.held
}

// An option's bytes as a block value; one that cannot be read counts as absent.
pub fn block_handler_read(strict: bool, option: &[u8]) -> Recorded
    ensures { result ≡ block_read (read_of strict option.now) }
{
    state::recording_of(block_option::read(strict, option))
}

pub fn block_handler_write(strict: bool, num: u32, more: bool, exponent: u8) -> Written
    ensures { result ≡ in_three (written strict (record { num = num; more = more; size_exponent = exponent })) }
{
    let block = BlockValue {
        num,
        more,
        size_exponent: exponent,
    };
    block_option::write(strict, block)
}

// The body that the application sees, of a payload and an upload memory of these lengths.
pub fn block_handler_body(reply: Reply, payload: usize, upload: usize) -> Found
    ensures { result ≡ found_in (body_in reply) payload upload }
{
    replies::found_in(replies::body_in(reply), payload, upload)
}

// The head that a served chunk goes out under, of a response memory of this length.
pub fn block_handler_served_head(reply: Reply, response: usize) -> Found
    ensures { result ≡ found_in (served_head_in reply) response response }
{
    replies::found_in(replies::served_head_in(reply), response, response)
}

pub fn block_handler_served_chunk(reply: Reply, response: usize) -> Found
    ensures { result ≡ found_in (chunk_in reply) response response }
{
    replies::found_in(replies::chunk_in(reply), response, response)
}

// What a response sends of its own payload, which has this length.
pub fn block_handler_sent(reply: Reply, payload: usize) -> Found
    ensures { result ≡ found_in (sent_in reply) payload payload }
{
    replies::found_in(replies::sent_in(reply), payload, payload)
}

// A request, before the application sees it: intercept_request in the Rust.
pub fn block_handler_request<'a>(
    table: &mut Table,
    config: Config,
    upload: &mut [u8],
    response: &'a [u8],
    time: u64,
    key: &'a [u8],
    bare: usize,
    given1: bool,
    block1: &'a [u8],
    given2: bool,
    block2: &'a [u8],
    payload: &'a [u8],
) -> Reply
    ensures { Replies config (world table.old upload.old response.now)
        (request_call (record { time = time; bare = bare; given1 = given1; given2 = given2 }) key.now block1.now block2.now payload.now)
        (world table.new upload.new response.now) result }
{
    let old = *table;
    let numbers = RequestNumbers {
        time,
        bare,
        given1,
        given2,
    };
    let out = outcomes::request(
        old, config, upload, response, numbers, key, block1, block2, payload,
    );
    lent_table::store_change(table, config.lifetime, time, out.change);
    out.reply
}

// A response, before it is sent: intercept_response in the Rust.
pub fn block_handler_response<'a>(
    table: &mut Table,
    config: Config,
    upload: &'a [u8],
    response: &mut [u8],
    time: u64,
    key: &'a [u8],
    bare: usize,
    own: bool,
    head: &'a [u8],
    payload: &'a [u8],
) -> Reply
    ensures { Replies config (world table.old upload.now response.old)
        (response_call (record { time = time; bare = bare; own = own }) key.now head.now payload.now)
        (world table.new upload.now response.new) result }
{
    let old = *table;
    let numbers = ResponseNumbers { time, bare, own };
    let out = outcomes::response(old, config, upload, response, numbers, key, head, payload);
    lent_table::store_change(table, config.lifetime, time, out.change);
    out.reply
}
