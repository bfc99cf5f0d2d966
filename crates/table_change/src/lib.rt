// What a call changes of a table.
#![tactic(auto)]

ghost use Rattle.std.specs.Prelude.{◌≡◌, ◌^◌, ◌<◌};
ghost use Rattle.table_change.specs.Change.{changed, unchanged, opened_from, change_to};

use block_state::{Answer, Stepped};
use block_table::Table;
use config::Config;
use entries::Entry;
use keys::Key;
use places::Sight;
use refusal::Refusal;

// The entries that are not live may have to be freed, the clock is set, and one entry is put in its place; then the table holds so many bytes.
#[derive(Clone, Copy)]
pub struct Change {
    pub freed: bool,
    pub clock: u64,
    pub held: u64,
    pub at: usize,
    pub entry: Entry,
    pub answer: Answer,
}

// A refusal by checks 1 to 3 changes nothing: the entry that is seen is put back where it stood.
pub fn refused(sight: Sight, why: Refusal) -> Change
    ensures { result ≡ unchanged sight why }
{
    let entry = sight.entry;
    let answer = Answer::Refused(why);
    Change {
        freed: false,
        clock: sight.clock,
        held: sight.held,
        at: sight.at,
        entry,
        answer,
    }
}

// The entry that a call at its place starts from.
pub fn opened_entry(config: Config, sight: Sight, time: u64, key: Key) -> Entry
    ensures { result ≡ opened_from config.lifetime time key sight.entry }
{
    let old = sight.entry;
    entries::start_from(entries::swept_entry(old, config.lifetime, time), key)
}

// What a step on the entry at i leaves: the entry is in use for its key, and touched now. The figure is what the others hold and what this entry holds now.
pub fn leave(sight: Sight, i: usize, time: u64, key: Key, step: Stepped) -> Change
    requires { sight.others < 2 ^ 60 }
    ensures { result ≡ change_to sight i time key step }
{
    let state = step.state;
    let entry = Entry {
        key,
        used: true,
        touched: time,
        state,
    };
    let answer = step.answer;
    Change {
        freed: sight.freed,
        clock: time,
        held: sight.others + entries::held_by(entry),
        at: i,
        entry,
        answer,
    }
}

// The table with a change made.
pub fn changed_table(table: Table, lifetime: u64, time: u64, change: Change) -> Table
    ensures { result ≡ changed lifetime time table change }
{
    let entries = table.entries;
    let entry = change.entry;
    if change.freed {
        let row = block_table::sweep_row(entries, lifetime, time);
        return block_table::put_entry(row, change.clock, change.held, change.at, entry);
    }
    block_table::put_entry(entries, change.clock, change.held, change.at, entry)
}
