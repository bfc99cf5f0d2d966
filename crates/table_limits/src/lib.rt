// Whether a configuration, a table and both memories are within their limits, without a call; and whether a table is fresh.
#![tactic(auto)]

ghost use Rattle.std.specs.Prelude.{◌≡◌, ◌&&◌, eqb};
ghost use Rattle.keys.specs.Lists.{all};
ghost use Rattle.entries.specs.Entries.{unused, entry_ok};
ghost use Rattle.entries.specs.Held.{held};
ghost use Rattle.block_table.specs.Table.{table_ok, table_of};
ghost use Rattle.judge.specs.Limits.{config_ok, memories_ok};

use block_table::Table;
use config::Config;
use entries::Entry;

fn entries_ok(config: Config, clock: u64, entries: [Entry; 16]) -> bool
    ensures { result ≡ all (entry_ok config clock) entries }
{
    entries
        .iter()
        .all(|e| entries::entry_checked(config, clock, *e).ok)
}

// The bytes that these entries hold, by a walk over them.
fn held_in(entries: [Entry; 16]) -> u64
    ensures { result ≡ held entries }
{
    let mut bytes: u64 = 0;
    for e in &entries {
        bytes += entries::held_by(*e);
    }
    bytes
}

// The table with this clock and these entries, with its figure counted.
pub fn table_of(clock: u64, entries: [Entry; 16]) -> Table
    ensures { result ≡ table_of clock entries }
{
    Table {
        clock,
        held: held_in(entries),
        entries,
    }
}

// Byte by byte where keys are compared, which is slow.
#[tactic(auto, unfolding(block_table::specs::Table::table_ok, block_table::specs::Table::figure_ok))]
pub fn table_ok(config: Config, table: Table) -> bool
    ensures { result ≡ table_ok config table }
{
    entries_ok(config, table.clock, table.entries)
        && table.held == held_in(table.entries)
        && block_table::all_distinct(table.entries)
}

// Whether a configuration and a table are within their limits.
pub fn lone_ok(config: Config, table: Table) -> bool
    ensures { result ≡ (config_ok config && table_ok config table) }
{
    judge::config_ok(config) && table_ok(config, table)
}

// Those of a call without its message: u and v are the lengths of the memories.
pub fn within_limits(config: Config, table: Table, u: usize, v: usize) -> bool
    ensures { result ≡ (config_ok config && memories_ok config u v && table_ok config table) }
{
    judge::numbers_ok(config, u, v) && table_ok(config, table)
}

fn all_unused(entries: [Entry; 16]) -> bool
    ensures { result ≡ all unused entries }
{
    entries.iter().all(|e| !e.used)
}

// "A fresh table is empty with clock 0."
pub fn is_empty(table: Table) -> bool
    ensures { result ≡ (all unused table.entries && eqb table.clock 0) }
{
    all_unused(table.entries) && table.clock == 0
}
