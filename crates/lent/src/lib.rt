// The lent forms of document 01: one key's entry by `&mut`, and the table's entries as a lent row.
#![tactic(auto)]

ghost use Rattle.std.specs.Prelude.{◌≡◌};
ghost use Rattle.block_state.specs.Contract.{asking, replying};
ghost use Rattle.entries.specs.Entries.{holds, sweep};
ghost use Rattle.key_place.specs.Place.{place};
ghost use Rattle.lent_steps.specs.Lent.{request_lent, response_lent, Leaves};
ghost use Rattle.lent.specs.Row.{seen_next};

use block_state::{RequestNumbers, ResponseNumbers};
use config::Config;
use entries::Entry;
use replies::Reply;

// What a walk has seen of the row so far: the first entry for the key and the first free one.
#[derive(Clone, Copy)]
pub struct Seen {
    pub found: Option<usize>,
    pub free: Option<usize>,
}

// A request on an entry that is lent, in use for its key: as `block_handler_find_and_free` left it, or a new key's: used, with its key, all else zeros. Its state is
// stepped, and it is touched. `home` and `away` are where the key's two pieces begin. The checks of a call (limits, clock, expiry, place) are the caller's to
// make first: then nothing is refused here that a call would not refuse. If the entry is a table's, the table's figure is the caller's to set: what it holds may change here.
#[unsafe(no_mangle)]
pub extern "C" fn block_handler_lent_request<'a>(
    e: &mut Entry,
    config: Config,
    home: usize,
    away: usize,
    piece: &mut [u8],
    numbers: RequestNumbers,
    block1: &'a [u8],
    block2: &'a [u8],
    payload: &'a [u8],
) -> Reply
    ensures { Leaves (request_lent config home away numbers.time e.old piece.old
        (asking numbers block1.now block2.now payload.now)) e.new piece.new result }
{
    let old = *e;
    let out = lent_steps::request(
        old, config, home, away, piece, numbers, block1, block2, payload,
    );
    *e = out.entry;
    out.reply
}

// A response on an entry that is lent, as a request is: its piece is the key's of the response memory.
#[unsafe(no_mangle)]
pub extern "C" fn block_handler_lent_response<'a>(
    e: &mut Entry,
    config: Config,
    piece: &mut [u8],
    numbers: ResponseNumbers,
    head: &'a [u8],
    payload: &'a [u8],
) -> Reply
    ensures { Leaves (response_lent config numbers.time e.old piece.old
        (replying numbers head.now payload.now)) e.new piece.new result }
{
    let old = *e;
    let out = lent_steps::response(old, config, piece, numbers, head, payload);
    *e = out.entry;
    out.reply
}

#[tactic(auto, unfolding(entries::specs::Entries::holds))]
fn holds_key(e: Entry, key: &[u8]) -> bool
    ensures { result ≡ holds key.now e }
{
    e.used && keys::same_as(key, e.key)
}

// What is seen once entry i is looked at with the key.
fn see(seen: Seen, i: usize, e: Entry, key: &[u8]) -> Seen
    ensures { result ≡ seen_next seen i e key.now }
{
    Seen {
        found: seen.found.or(holds_key(e, key).then_some(i)),
        free: seen.free.or((!e.used).then_some(i)),
    }
}

// The walk over a lent row of sixteen entries: frees every entry that is not live, and gives the place of the key in the row that is left (its own entry, else the lowest free one), or 16.
// Check 1 and the clock are the caller's to see to first, and the figure of a table that has these entries, after. Of a row of another length the place means nothing, and may be no entry's.
#[unsafe(no_mangle)]
pub extern "C" fn block_handler_find_and_free(
    entries: &mut [Entry],
    lifetime: u64,
    time: u64,
    key: &[u8],
) -> usize
    ensures { (entries.new ≡ sweep lifetime time entries.old) × (result ≡ place key.now (sweep lifetime time entries.old)) }
{
    let mut seen = Seen {
        found: None,
        free: None,
    };
    for (i, e) in entries.iter_mut().enumerate() {
        *e = entries::swept_entry(*e, lifetime, time);
        seen = see(seen, i, *e, key);
    }
    let found = seen.found.unwrap_or(entries.len());
    if found < 16 {
        return found;
    }
    seen.free.unwrap_or(entries.len())
}
