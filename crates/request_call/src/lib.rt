// A request: what it changes of a table, and of the upload memory.
#![tactic(auto)]

ghost use Rattle.std.specs.Prelude.{◌≡◌, List, ℕ, length};
ghost use Rattle.entries.specs.Entries.{sweep};
ghost use Rattle.places.specs.Places.{opened};
ghost use Rattle.keys.specs.Keys.{Name};
ghost use Rattle.judge.specs.Verdict.{lengths};
ghost use Rattle.table_change.specs.Change.{changed};
ghost use Rattle.call.specs.Call.{done};
ghost use Rattle.call.specs.Contract.{world, request_call, Meant, PlacedAt, asked_at};

use block_state::RequestNumbers;
use block_table::Table;
use config::Config;
use judge::Lengths;
use keys::Key;
use places::Sight;
use request_step::Asked;
use table_change::Change;

// A request at its place: the step on entry i and on its piece.
fn request_at(
    config: Config,
    sight: Sight,
    upload: &mut [u8],
    key: Key,
    i: usize,
    asked: Asked,
    payload: &[u8],
) -> Change
    requires { (k : Name) × (v : ℕ) × (t : Table) × PlacedAt config sight key asked.time (lengths (length upload.old) v asked.bare (length payload.now) 0) i k t }
    ensures { (k : Name) (v : ℕ) (t : Table)
        → PlacedAt config sight key asked.time (lengths (length upload.old) v asked.bare (length payload.now) 0) i k t → (d : List ℕ)
        → done (world (changed config.lifetime asked.time t result) upload.new d) result.answer
        ≡ asked_at config (world t upload.old d) (sweep config.lifetime asked.time t.entries) i
        (opened k (sweep config.lifetime asked.time t.entries)) asked payload.now }
{
    let e = table_change::opened_entry(config, sight, asked.time, key);
    let state = e.state;
    let home = i * config.upload;
    let away = i * config.response;
    let end = home + config.upload;
    let step = request_step::step_request(
        config,
        home,
        away,
        state,
        &mut upload[home..end],
        asked,
        payload,
    );
    let stored = e.key;
    table_change::leave(sight, i, asked.time, stored, step)
}

// A request: the upload memory is changed here, and what changes of the table is returned. The block options are given or not, and their bytes count only if they are.
// Of the change only what it makes of this table, at this time and lifetime, is fixed: `freed`, `at` and `entry` may differ where that comes to the same.
pub fn request_change<'a>(
    config: Config,
    table: Table,
    upload: &mut [u8],
    response: &'a [u8],
    numbers: RequestNumbers,
    key: &'a [u8],
    block1: &'a [u8],
    block2: &'a [u8],
    payload: &'a [u8],
) -> Change
    ensures { Meant config (world table upload.old response.now)
        (request_call numbers key.now block1.now block2.now payload.now)
        (world (changed config.lifetime numbers.time table result) upload.new response.now) result.answer }
{
    let lengths = Lengths {
        upload: upload.len(),
        response: response.len(),
        bare: numbers.bare,
        payload: payload.len(),
        head: 0,
    };
    let named = named_keys::named(key);
    let sight = places::look(config, table, numbers.time, named);
    let own = named.key;
    match judge::judge(config, sight, numbers.time, lengths) {
        Err(why) => table_change::refused(sight, why),
        Ok(i) => {
            let asked = request_step::read_options(config, numbers, block1, block2);
            request_at(config, sight, upload, own, i, asked, payload)
        }
    }
}
