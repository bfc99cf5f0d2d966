// One entry of the table: its limits, its tag, whether two have one key, the bytes it holds, expiry, and how a key's entry starts.
#![tactic(auto)]

ghost use Rattle.std.specs.Prelude.{◌≡◌, true, false, ◌^◌, ◌<◌};
ghost use Rattle.block_state.specs.State.{nothing};
ghost use Rattle.keys.specs.Keys.{key_sized};
ghost use Rattle.entries.specs.Entries.{free, start_from, entry_ok, clash, swept};
ghost use Rattle.entries.specs.Held.{held_by};
ghost use Rattle.entries.specs.Quick.{tag_of, sized};

use block_state::BlockState;
use config::Config;
use keys::Key;
use state_limits::Checked;

#[repr(C)]
#[derive(Clone, Copy)]
pub struct Entry {
    pub key: Key,
    // A flag, and no Option of the rest, since C shares the layout.
    pub used: bool,
    pub touched: u64,
    pub state: BlockState,
}

// ---- Limits

fn used_checked(config: Config, clock: u64, e: Entry) -> Checked
    requires { e.used ≡ true }
    ensures { (result.ok ≡ entry_ok config clock e) × (result.bytes ≡ held_by e) × (result.bytes < 2 ^ 34) }
{
    let found = state_limits::state_checked(config, e.state);
    Checked {
        ok: keys::stored_ok(e.key) & (e.touched <= clock) & found.ok,
        bytes: found.bytes,
    }
}

fn free_ok(config: Config, clock: u64, e: Entry) -> bool
    requires { e.used ≡ false }
    ensures { (result ≡ entry_ok config clock e) × (key_sized e.key ≡ true) }
{
    keys::is_no_key(e.key) & (e.touched == 0) & state_limits::is_nothing(e.state)
}

// Whether an entry is within its limits, and what it holds.
pub fn entry_checked(config: Config, clock: u64, e: Entry) -> Checked
    ensures { (result.ok ≡ entry_ok config clock e) × (result.bytes ≡ held_by e) × (result.bytes < 2 ^ 34) × (sized e ≡ true) }
{
    if e.used {
        return used_checked(config, clock, e);
    }
    Checked {
        ok: free_ok(config, clock, e),
        bytes: 0,
    }
}

pub fn tag(e: Entry, i: u32) -> u32
    requires { i < 16 }
    ensures { result ≡ tag_of e i }
{
    if e.used {
        return keys::tag(e.key);
    }
    i * 2
}

#[tactic(auto, unfolding(crate::specs::Entries::clash, crate::specs::Entries::holds))]
pub fn clashes(e: Entry, f: Entry) -> bool
    ensures { result ≡ clash e f }
{
    e.used && f.used && keys::same_key(e.key, f.key)
}

// ---- The bytes held

// What an entry holds, which is below 2^34 even off its limits.
pub fn held_by(e: Entry) -> u64
    ensures { (result ≡ held_by e) × (result < 2 ^ 34) }
{
    if e.used {
        return state_limits::held_of(e.state);
    }
    0
}

// ---- Expiry

pub fn free_entry() -> Entry
    ensures { result ≡ free }
{
    Entry {
        key: keys::no_key(),
        used: false,
        touched: 0,
        state: BlockState::default(),
    }
}

pub fn swept_entry(e: Entry, lifetime: u64, time: u64) -> Entry
    ensures { result ≡ swept lifetime time e }
{
    if expiry::is_live(e.used, e.touched, lifetime, time) {
        return e;
    }
    free_entry()
}

// ---- The start of a call

// The entry that a call starts from, of the one at the key's place in a swept row.
pub fn start_from(e: Entry, key: Key) -> Entry
    ensures { result ≡ start_from key e }
{
    if e.used {
        return e;
    }
    Entry {
        key,
        used: true,
        ..free_entry()
    }
}
