// The table of sixteen entries, its clock and the bytes that they hold: whether no two have one key, expiry, and an entry put in its place.
#![tactic(auto)]

ghost use Rattle.std.specs.Prelude.{◌≡◌, length, drop};
ghost use Rattle.entries.specs.Entries.{sweep};
ghost use Rattle.block_table.specs.Table.{distinct, fresh_table};
ghost use Rattle.block_table.specs.Quick.{alone, figured};

use entries::Entry;

#[repr(C)]
#[derive(Clone, Copy)]
pub struct Table {
    pub clock: u64,
    pub held: u64,
    pub entries: [Entry; 16],
}

// ---- Limits

fn alone_from(e: Entry, entries: [Entry; 16], from: usize) -> bool
    ensures { result ≡ alone e (drop from entries) }
{
    for i in from..16 {
        if entries::clashes(e, entries[i]) {
            return false;
        }
    }
    true
}

// Byte by byte, which is slow.
pub fn all_distinct(entries: [Entry; 16]) -> bool
    ensures { result ≡ distinct entries }
{
    for (i, &e) in entries.iter().enumerate() {
        if !alone_from(e, entries, i + 1) {
            return false;
        }
    }
    true
}

// ---- Expiry

pub fn sweep_row(entries: [Entry; 16], lifetime: u64, time: u64) -> [Entry; 16]
    ensures { (result ≡ sweep lifetime time entries) × (length result ≡ 16) }
{
    let mut row = entries;
    for e in &mut row {
        if !expiry::is_live(e.used, e.touched, lifetime, time) {
            *e = entries::free_entry();
        }
    }
    row
}

// ---- One entry, and a fresh table

// The row with this entry at i, the clock recorded, and a figure that the caller keeps. An i of 16 or more changes no entry.
pub fn put_entry(entries: [Entry; 16], clock: u64, held: u64, i: usize, e: Entry) -> Table
    ensures { result ≡ figured clock held entries i e }
{
    let mut row = entries;
    if i < 16 {
        row[i] = e;
    }
    Table {
        clock,
        held,
        entries: row,
    }
}

pub fn fresh() -> Table
    ensures { result ≡ fresh_table }
{
    Table {
        clock: 0,
        held: 0,
        entries: [entries::free_entry(); 16],
    }
}

// The bytes that the entries in use hold, if the table is within its limits: the figure is read, and nothing is counted.
pub fn bytes_held(table: Table) -> u64
    ensures { result ≡ table.held }
{
    table.held
}
