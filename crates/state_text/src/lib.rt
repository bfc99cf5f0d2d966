// The state on one line: clock, bytes held, entries in use, and the numbers of the memories.
#![tactic(auto)]

use block_table::Table;
use entries::Entry;

mod memory;

ghost use Rattle.std.specs.Prelude.{◌+◌, ◌≤◌, length, nat_lt};
ghost use Rattle.pieces.specs.Memory.{Put};
ghost use Rattle.state_text.specs.State.{next_text, entries_text, numbers_text, state_text};

// An entry after those before it, where any are: the first stands at `base`.
fn put_next(out: &mut [u8], base: usize, at: usize, i: u64, e: Entry) -> usize
    requires { at + 401 ≤ length out.old }
    ensures put { Put out.old at (next_text (nat_lt base at) i e) out.new result }
    ensures upper_bound { result ≤ at + 401 }
{
    if !e.used {
        return at;
    }
    if base < at {
        let k = pieces::put_byte(out, at, b';');
        return entry_text::put_entry(out, k, i, e);
    }
    entry_text::put_entry(out, at, i, e)
}

fn put_entries(out: &mut [u8], at: usize, entries: [Entry; 16]) -> usize
    requires { at + 6500 ≤ length out.old }
    ensures put { Put out.old at (entries_text entries) out.new result }
    ensures upper_bound { result ≤ at + 6500 }
{
    let mut k = at;
    for (i, e) in entries.iter().enumerate() {
        k = put_next(out, at, k, i as u64, *e);
    }
    if k == at {
        return pieces::put_byte(out, k, b'-');
    }
    k
}

// `N state CLOCK HELD ` with its last space
fn put_numbers(out: &mut [u8], at: usize, n: u64, table: Table) -> usize
    requires { at + 100 ≤ length out.old }
    ensures put { Put out.old at (numbers_text n table) out.new result }
    ensures upper_bound { result ≤ at + 100 }
{
    let held = block_table::bytes_held(table);
    let k = script_text::put_decimal(out, at, n);
    let k = pieces::put(out, k, b" state ");
    let k = script_text::put_decimal(out, k, table.clock);
    let k = pieces::put_byte(out, k, b' ');
    let k = script_text::put_decimal(out, k, held);
    pieces::put_byte(out, k, b' ')
}

// `N state CLOCK HELD ENTRIES UPLOAD RESPONSE`
pub fn put_state<'a>(
    out: &mut [u8],
    at: usize,
    n: u64,
    table: Table,
    upload: &'a [u8],
    response: &'a [u8],
) -> usize
    requires { at + 7000 ≤ length out.old }
    ensures put { Put out.old at (state_text n table upload.now response.now) out.new result }
    ensures upper_bound { result ≤ at + 7000 }
{
    let k = put_numbers(out, at, n, table);
    let k = put_entries(out, k, table.entries);
    let k = pieces::put_byte(out, k, b' ');
    memory::put_memories(out, k, upload, response)
}
