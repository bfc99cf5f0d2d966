// A response: what it changes of a table, and of the response memory.
#![tactic(auto)]

ghost use Rattle.std.specs.Prelude.{◌≡◌, List, ℕ, length};
ghost use Rattle.block_state.specs.Message.{response};
ghost use Rattle.block_state.specs.Contract.{replying};
ghost use Rattle.entries.specs.Entries.{sweep};
ghost use Rattle.places.specs.Places.{opened};
ghost use Rattle.keys.specs.Keys.{Name};
ghost use Rattle.judge.specs.Verdict.{lengths};
ghost use Rattle.table_change.specs.Change.{changed};
ghost use Rattle.call.specs.Call.{done, call_at};
ghost use Rattle.call.specs.Contract.{world, response_call, Meant, PlacedAt};

use block_state::ResponseNumbers;
use block_table::Table;
use config::Config;
use judge::Lengths;
use keys::Key;
use places::Sight;
use table_change::Change;

// A response at its place.
fn response_at<'a>(
    config: Config,
    sight: Sight,
    response: &mut [u8],
    key: Key,
    i: usize,
    numbers: ResponseNumbers,
    head: &'a [u8],
    payload: &'a [u8],
) -> Change
    requires { (k : Name) × (u : ℕ) × (t : Table)
        × PlacedAt config sight key numbers.time (lengths u (length response.old) numbers.bare (length payload.now) (length head.now)) i k t }
    ensures { (k : Name) (u : ℕ) (t : Table)
        → PlacedAt config sight key numbers.time
        (lengths u (length response.old) numbers.bare (length payload.now) (length head.now)) i k t → (m : List ℕ)
        → done (world (changed config.lifetime numbers.time t result) m response.new) result.answer
        ≡ call_at config (world t m response.old) numbers.time (sweep config.lifetime numbers.time t.entries) i
        (opened k (sweep config.lifetime numbers.time t.entries))
        (Rattle.block_state.specs.Message.response (replying numbers head.now payload.now)) }
{
    let e = table_change::opened_entry(config, sight, numbers.time, key);
    let state = e.state;
    let from = i * config.response;
    let end = from + config.response;
    let step = response_step::step_response(
        config,
        state,
        &mut response[from..end],
        numbers,
        head,
        payload,
    );
    let stored = e.key;
    table_change::leave(sight, i, numbers.time, stored, step)
}

// A response: the response memory is changed here, and what changes of the table is returned. `head` is its encoded header and options.
// Of the change only what it makes of this table, at this time and lifetime, is fixed: `freed`, `at` and `entry` may differ where that comes to the same.
pub fn response_change<'a>(
    config: Config,
    table: Table,
    upload: &'a [u8],
    response: &mut [u8],
    numbers: ResponseNumbers,
    key: &'a [u8],
    head: &'a [u8],
    payload: &'a [u8],
) -> Change
    ensures { Meant config (world table upload.now response.old)
        (response_call numbers key.now head.now payload.now)
        (world (changed config.lifetime numbers.time table result) upload.now response.new) result.answer }
{
    let lengths = Lengths {
        upload: upload.len(),
        response: response.len(),
        bare: numbers.bare,
        payload: payload.len(),
        head: head.len(),
    };
    let named = named_keys::named(key);
    let sight = places::look(config, table, numbers.time, named);
    let own = named.key;
    match judge::judge(config, sight, numbers.time, lengths) {
        Err(why) => table_change::refused(sight, why),
        Ok(i) => response_at(config, sight, response, own, i, numbers, head, payload),
    }
}
