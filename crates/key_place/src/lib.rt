// Whether an entry is live and holds a key, and the key's place in a row, found byte by byte before the row is swept.
#![tactic(auto)]

ghost use Rattle.std.specs.Prelude.{◌≡◌};
ghost use Rattle.keys.specs.Lists.{find};
ghost use Rattle.keys.specs.Keys.{key_of};
ghost use Rattle.entries.specs.Entries.{sweep};
ghost use Rattle.entries.specs.Quick.{holds_live, not_live};
ghost use Rattle.key_place.specs.Place.{row_index, place};

use entries::Entry;
use keys::Key;

#[tactic(auto, unfolding(entries::specs::Quick::holds_live, entries::specs::Entries::live))]
pub fn holds_live(e: Entry, lifetime: u64, time: u64, key: Key) -> bool
    ensures { result ≡ holds_live lifetime time (key_of key) e }
{
    expiry::is_live(e.used, e.touched, lifetime, time) && keys::same_key(key, e.key)
}

fn find_key(entries: [Entry; 16], lifetime: u64, time: u64, key: Key) -> Option<usize>
    ensures { result ≡ row_index (find (holds_live lifetime time (key_of key)) entries) }
{
    for i in 0..16 {
        if holds_live(entries[i], lifetime, time, key) {
            return Some(i);
        }
    }
    None
}

fn find_free(entries: [Entry; 16], lifetime: u64, time: u64) -> Option<usize>
    ensures { result ≡ row_index (find (not_live lifetime time) entries) }
{
    for at in 0..16 {
        if !expiry::is_live(entries[at].used, entries[at].touched, lifetime, time) {
            return Some(at);
        }
    }
    None
}

// The place of the key in the row that a sweep would leave, found without building that row.
pub fn place_of(entries: [Entry; 16], lifetime: u64, time: u64, key: Key) -> Option<usize>
    ensures { result ≡ row_index (place (key_of key) (sweep lifetime time entries)) }
{
    if let Some(i) = find_key(entries, lifetime, time, key) {
        return Some(i);
    }
    find_free(entries, lifetime, time)
}
