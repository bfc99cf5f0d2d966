// The rows of an image: written, compared and read.
#![tactic(auto)]

ghost use Rattle.std.specs.Prelude.{◌≡◌, cond, [], ◌+◌, ◌*◌, ◌<◌, ◌≤◌, length, drop, replicate};
ghost use Rattle.pieces.specs.Memory.{part, Put};
ghost use Rattle.keys.specs.Keys.{same};
ghost use Rattle.entries.specs.Entries.{free};
ghost use Rattle.image_format.specs.Rows.{flag, row_numbers, row_bytes, read_entry, rows_from, count, read_rows};

use block_state::{Assembled, BlockState, Cached, Recorded};
use entries::Entry;

// ---- Written

// What stands between the row's first eight bytes and its key.
fn put_numbers(out: &mut [u8], at: usize, e: Entry) -> usize
    requires { at + 24 ≤ length out.old }
    ensures { (Put out.old at (row_numbers e) out.new result) × (result ≡ at + 24) }
{
    let state = e.state;
    let to = big_endian::put_number(out, at, 4, u64::from(state.recorded.num));
    let to = big_endian::put_number(out, to, 4, u64::from(state.assembled.len));
    let to = big_endian::put_number(out, to, 4, u64::from(state.cached.payload));
    let to = big_endian::put_number(out, to, 4, 0);
    big_endian::put_number(out, to, 8, e.touched)
}

fn put_row(out: &mut [u8], at: usize, i: usize, e: Entry) -> usize
    requires i_bound { i < 16 }
    requires at_in_bounds { at + 96 ≤ length out.old }
    ensures { (Put out.old at (row_bytes i e) out.new result) × (length (row_bytes i e) ≡ 96) }
{
    let state = e.state;
    let first = [
        i as u8,
        e.key.len,
        state.assembled.exponent,
        u8::from(state.cached.held),
        state.cached.head,
        u8::from(state.recorded.given),
        u8::from(state.recorded.more),
        state.recorded.exponent,
    ];
    let to = pieces::put(out, at, &first);
    let to = put_numbers(out, to, e);
    keys::put_key(out, to, e.key)
}

// The row of entry i, if it is in use.
#[tactic(auto, using(crate::proofs::Turns::row_written, crate::proofs::Turns::none_written))]
fn put_used(out: &mut [u8], at: usize, i: usize, e: Entry) -> usize
    requires i_bound { i < 16 }
    requires used_in_bounds { at + cond e.used 96 0 ≤ length out.old }
    ensures { (Put out.old at (cond e.used (row_bytes i e) []) out.new result) × (result ≡ at + cond e.used 96 0) }
{
    if e.used {
        return put_row(out, at, i, e);
    }
    at
}

#[tactic(auto, using(crate::proofs::Turns::count_step))]
pub fn put_rows(out: &mut [u8], start: usize, entries: [Entry; 16]) -> usize
    requires { start + 96 * count entries ≤ length out.old }
    ensures { (Put out.old start (rows_from 0 entries) out.new result) × (result ≡ start + 96 * count entries) }
{
    let mut to = start;
    for (i, e) in entries.iter().enumerate() {
        to = put_used(out, to, i, *e);
    }
    to
}

// ---- Compared

// Whether these bytes are the row of entry i.
#[tactic(auto, using(crate::proofs::Turns::whole))]
fn same_row(row: &[u8], i: usize, e: Entry) -> bool
    requires { i < 16 }
    ensures { (result ≡ same (row_bytes i e) row.now) × (length (row_bytes i e) ≡ 96) }
{
    let mut written = [0u8; 96];
    put_row(&mut written, 0, i, e);
    keys::same_bytes(&written, row)
}

// Whether the rows of these entries are the image's, byte by byte.
#[tactic(auto, using(crate::proofs::Turns::count_step))]
pub fn same_rows(image: &[u8], entries: [Entry; 16]) -> bool
    requires { 32 + 96 * count entries ≤ length image.now }
    ensures { result ≡ same (rows_from 0 entries) (part image.now 32 (96 * count entries)) }
{
    let mut same = true;
    let mut at = 32;
    for (i, e) in entries.iter().enumerate() {
        if e.used {
            let end = at + 96;
            same &= same_row(&image[at..end], i, *e);
            at = end;
        }
    }
    same
}

// ---- Read

#[tactic(auto, unfolding(image_format::specs::Rows::read_entry))]
fn read_state(row: &[u8]) -> BlockState
    requires { length row.now ≡ 96 }
    ensures { result ≡ (read_entry row.now).state }
{
    BlockState {
        assembled: Assembled {
            len: big_endian::number_at(row, 12, 4) as u32,
            exponent: row[2],
        },
        cached: Cached {
            held: row[3] == 1,
            head: row[4],
            payload: big_endian::number_at(row, 16, 4) as u32,
        },
        recorded: Recorded {
            given: row[5] == 1,
            more: row[6] == 1,
            exponent: row[7],
            num: big_endian::number_at(row, 8, 4) as u32,
        },
    }
}

#[tactic(auto, unfolding(image_format::specs::Rows::read_entry, pieces::specs::Memory::part))]
fn read_entry(row: &[u8]) -> Entry
    requires { length row.now ≡ 96 }
    ensures { result ≡ read_entry row.now }
{
    Entry {
        key: named_keys::read_key(&row[32..96], row[1]),
        used: true,
        touched: big_endian::number_at(row, 24, 8),
        state: read_state(row),
    }
}

// Reads n rows into sixteen free entries. A row whose number is no entry's is lost.
pub fn read_rows(image: &[u8], n: usize) -> [Entry; 16]
    requires { 32 + 96 * n ≤ length image.now }
    ensures { (result ≡ read_rows (replicate 16 free) n (drop 32 image.now)) × (length result ≡ 16) }
{
    let mut entries = [entries::free_entry(); 16];
    for j in 0..n {
        let at = 32 + 96 * j;
        let row = &image[at..at + 96];
        let number = usize::from(row[0]);
        if number < 16 {
            entries[number] = read_entry(row);
        }
    }
    entries
}
