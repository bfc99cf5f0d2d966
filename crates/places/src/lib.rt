// What a call sees of the table, with the place of its key: the entry in use for it, else the lowest free one.
#![tactic(auto)]

ghost use Rattle.std.specs.Prelude.{◌≡◌, true, cond, ◌&&◌, ◌^◌, ◌<◌, length, leb, eqb};
ghost use Rattle.keys.specs.Lists.{find};
ghost use Rattle.keys.specs.Keys.{Name, key_of, named_of};
ghost use Rattle.entries.specs.Entries.{swept, sweep};
ghost use Rattle.entries.specs.Held.{held_by};
ghost use Rattle.block_table.specs.Table.{distinct};
ghost use Rattle.key_place.specs.Place.{row_index};
ghost use Rattle.places.specs.declared.Place.TheVariants.{OffLimits};
ghost use Rattle.places.specs.Places.{standing, place_of};
ghost use Rattle.places.specs.Sight.{index_of, Sees, nothing_seen, seen_next, quick_place};
ghost use Rattle.entries.specs.Quick.{sized};

use block_table::Table;
use config::Config;
use entries::Entry;
use keys::{Key, NamedKey};

// The place of a key in the row that a sweep would leave. Three ways, and no `Result` of an `Option`: check 2 stands between the refusals of the last two.
#[derive(Clone, Copy)]
pub enum Place {
    // The index of the entry in use for it, else of the lowest free one.
    At(usize),
    // Neither is there.
    None,
    // The key or the table is off its limits.
    OffLimits,
}

// What a call needs of the table: its clock and its figure, the place of the key, the entry that stands there now, before any sweep, with its index (the first entry
// where there is no place), whether a sweep would free an entry in use, and what the others hold that it would keep.
#[derive(Clone, Copy)]
pub struct Sight {
    pub clock: u64,
    pub held: u64,
    pub place: Place,
    pub at: usize,
    pub entry: Entry,
    pub freed: bool,
    pub others: u64,
}

// What a walk has seen so far: whether all is within the limits, whether an entry is expired, the first entry that is not live, and the bytes that it counted, in all
// entries and in those that are expired.
#[derive(Clone, Copy)]
pub struct Seen {
    pub ok: bool,
    pub freed: bool,
    pub free: Option<usize>,
    pub counted: u64,
    pub gone: u64,
}

fn standing(found: Option<usize>) -> Place
    ensures { result ≡ standing found }
{
    match found {
        Some(i) => Place::At(i),
        None => Place::None,
    }
}

// The place found byte by byte, which is slow: only where two tags are equal. Off its limits if two entries in use have one key.
fn close_place(entries: [Entry; 16], lifetime: u64, time: u64, key: Key) -> Place
    ensures { result ≡ cond (distinct entries) (place_of (key_of key) (sweep lifetime time entries)) OffLimits }
{
    if block_table::all_distinct(entries) {
        return standing(key_place::place_of(entries, lifetime, time, key));
    }
    Place::OffLimits
}

// ---- By tags

// Where the tag stands in the row.
fn find_tag(row: [u32; 16], own: u32) -> Option<usize>
    ensures { result ≡ row_index (find (λ x. eqb x own) row) }
{
    for (i, &x) in row.iter().enumerate() {
        if x == own {
            return Some(i);
        }
    }
    None
}

// What is seen before any entry is looked at; `ok` says whether the key is within its limits.
fn nothing_seen(ok: bool) -> Seen
    ensures { result ≡ nothing_seen ok }
{
    Seen {
        ok,
        freed: false,
        free: None,
        counted: 0,
        gone: 0,
    }
}

// What an entry holds that a sweep keeps.
fn kept_by(e: Entry, lifetime: u64, time: u64) -> u64
    ensures { (result ≡ held_by (swept lifetime time e)) × (result < 2 ^ 34) }
{
    if expiry::is_live(e.used, e.touched, lifetime, time) {
        return entries::held_by(e);
    }
    0
}

// What is seen once entry i is looked at: it is live, expired or free.
fn see(seen: Seen, i: usize, e: Entry, config: Config, clock: u64, time: u64) -> Seen
    requires { (seen.counted < 2 ^ 60) × (seen.gone < 2 ^ 60) }
    ensures { (result ≡ seen_next config clock time seen i e) × (sized e ≡ true) × (held_by e < 2 ^ 34) }
{
    let checked = entries::entry_checked(config, clock, e);
    let ok = seen.ok & checked.ok;
    let counted = seen.counted + checked.bytes;
    if expiry::is_live(e.used, e.touched, config.lifetime, time) {
        return Seen {
            ok,
            counted,
            ..seen
        };
    }
    let free = seen.free.or(Some(i));
    if e.used {
        return Seen {
            ok,
            freed: true,
            free,
            counted,
            gone: seen.gone + checked.bytes,
        };
    }
    Seen {
        ok,
        free,
        counted,
        ..seen
    }
}

fn index_of(place: Place) -> usize
    ensures { (result ≡ index_of place) × (result < 16) }
{
    match place {
        Place::At(i) if i < 16 => i,
        _ => 0,
    }
}

// The key's place, by what is seen: whether all is within the limits, the first entry that is not live, whether the tags differ, where the key's own stands, and whether the
// entry there holds it. Where two tags are equal it does not tell.
fn quick_place(
    ok: bool,
    free: Option<usize>,
    apart: bool,
    first: Option<usize>,
    holds: bool,
) -> Option<Place>
    ensures { result ≡ quick_place ok free apart first holds }
{
    if !ok {
        return Some(Place::OffLimits);
    }
    if !apart {
        return None;
    }
    Some(standing(if holds { first.or(free) } else { free }))
}

// What a call needs of the table, for a key that `named_keys::named` made: of any other the contract says nothing. Both walks stand here, since a function that walks
// the row copies it first.
pub fn look(config: Config, table: Table, time: u64, named: NamedKey) -> Sight
    ensures { (k : Name) → named ≡ named_of k → Sees config time k table result }
{
    let entries = table.entries;
    let clock = table.clock;
    let figure = table.held;
    let mut seen = nothing_seen(named.ok);
    for (i, &e) in entries.iter().enumerate() {
        seen = see(seen, i, e, config, clock, time);
    }
    let mut tags = [0; 16];
    for (j, &e) in entries.iter().enumerate() {
        tags[j] = entries::tag(e, j as u32);
    }
    let first = find_tag(tags, named.tag);
    let holds = match first {
        Some(i) => key_place::holds_live(entries[i], config.lifetime, time, named.key),
        None => false,
    };
    let ok = seen.ok & (figure == seen.counted);
    let place = match quick_place(ok, seen.free, tags::apart(tags), first, holds) {
        Some(place) => place,
        None => close_place(entries, config.lifetime, time, named.key),
    };
    let at = index_of(place);
    let entry = entries[at];
    Sight {
        clock,
        held: figure,
        place,
        at,
        entry,
        freed: seen.freed,
        others: seen.counted - seen.gone - kept_by(entry, config.lifetime, time),
    }
}
