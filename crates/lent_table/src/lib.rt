// A call's change, made in a table that is lent by `&mut`.
#![tactic(auto)]

ghost use Rattle.std.specs.Prelude.{◌≡◌, not, ◌&&◌, ltb};
ghost use Rattle.table_change.specs.Change.{changed};

use block_table::Table;
use table_change::Change;

// Nothing expired: the clock, the figure and one entry are all that a call changes.
fn one_entry(change: Change) -> bool
    ensures { result ≡ (not change.freed && ltb change.at 16) }
{
    !change.freed & (change.at < 16)
}

// A call's change made in a lent table: the clock, the figure and one entry are stored where they stand. Only where an entry expired is the table stored whole.
pub fn store_change(table: &mut Table, lifetime: u64, time: u64, change: Change)
    ensures { table.new ≡ changed lifetime time table.old change }
{
    if one_entry(change) {
        let at = change.at;
        table.clock = change.clock;
        table.held = change.held;
        table.entries[at] = change.entry;
    } else {
        let old = *table;
        let new = table_change::changed_table(old, lifetime, time, change);
        *table = new;
    }
}
