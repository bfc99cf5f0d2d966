// The lines of standard input, of any length: read on, with the text that has not ended kept; and output that is written.
#![tactic(auto)]

ghost use Rattle.std.specs.Prelude.{◌≡◌, true, false, cond, ◌+◌, ◌-◌, ◌^◌, ◌≤◌, ◌<◌, min, eqb, length, take, replicate, IfSome, MatchOption};
ghost use Rattle.io.specs.Counts.{IsPrefixLen};
ghost use Rattle.pieces.specs.Memory.{patch, part};
ghost use Rattle.line_input.specs.Sizes.{longest, text_size};

use std::io::Read;

// The longest line that any program reads.
pub const LONGEST: usize = 200000;

// The longest line and one byte more.
const LONG: usize = LONGEST + 1;

// A line that has not ended, and room for what is read behind it.
const TEXT: usize = LONG + 65536;

// The text that is held. Lending it as a slice needs its length.
pub fn text() -> [u8; TEXT]
    ensures value { result ≡ replicate text_size 0 }
    ensures text_size_value { text_size ≡ length result }
{
    buffers::zeros()
}

// Where the text ends now, and whether the read failed. A failed read has an end too: the bytes that were held stay.
#[derive(Clone, Copy)]
pub struct Took {
    pub end: usize,
    pub failed: bool,
}

// How many bytes a read brought behind those that are held; none, where it failed.
fn taken(held: usize, got: Option<usize>) -> Took
    requires { IfSome got (λ n. held + n < 2 ^ 64) }
    ensures { MatchOption got ((result.end ≡ held) × (result.failed ≡ true)) (λ n. (result.end ≡ held + n) × (result.failed ≡ false)) }
{
    match got {
        Some(n) => Took {
            end: held + n,
            failed: false,
        },
        None => Took {
            end: held,
            failed: true,
        },
    }
}

// Reads on behind the bytes that are held, which stay. Where the text ends with them, the input has ended, the read failed, or there is no room.
pub fn read_on<R: Read>(input: &mut R, text: &mut [u8], held: usize) -> Took
    requires { held ≤ length text.old }
    ensures held_le_end { (held ≤ result.end) × (result.end ≤ length text.old) }
    ensures text_unchanged { take held text.new ≡ take held text.old }
{
    let got = input.read(&mut text[held..]).ok();
    taken(held, got)
}

// Reads until the text is full or the input has ended; where a read fails, nothing counts as read.
pub fn read_full<R: Read>(input: &mut R, text: &mut [u8]) -> Took
    ensures prefix_len { IsPrefixLen result.end text.new }
    ensures end_value { result.failed ≡ true → result.end ≡ 0 }
{
    let mut held = 0;
    let mut last = read_on(input, text, 0);
    while held < last.end {
        held = last.end;
        last = read_on(input, text, held);
    }
    if last.failed {
        return Took {
            end: 0,
            failed: true,
        };
    }
    last
}

// 0 once a read brings nothing; otherwise one fewer. It starts at 2^64 - 1 only so that the loop provably ends.
#[tactic(auto, using(std::proofs::lemmas::Bool::Decides::nat_tests))]
pub fn turns_left(turns: u64, held: usize, end: usize) -> u64
    requires { 0 < turns }
    ensures value { result ≡ cond (eqb end held) 0 (turns - 1) }
    ensures upper_bound { result < turns }
{
    if end == held { 0 } else { turns - 1 }
}

// Moves what has not ended to the front of the buffer. More than a line can have is cut: it stays longer than any line that is read.
pub fn keep(text: &mut [u8], from: usize, end: usize) -> usize
    requires { (from ≤ end) × (end ≤ length text.old) }
    ensures value { result ≡ min (end - from) (longest + 1) }
    ensures text_after { text.new ≡ patch text.old 0 (part text.old from result) }
{
    let n = (end - from).min(LONG);
    moving::move_left(text, from, 0, n);
    n
}

// How much of what is held is a last line, at the end of the input: none where a read failed, which may have cut it.
pub fn left_over(held: usize, last: Took) -> usize
    ensures { (result ≡ cond last.failed 0 held) × (result ≤ held) }
{
    if last.failed { 0 } else { held }
}

// Writes what waits, and answers whether all of it was written. No contract can say what is written.
pub fn print(out: &[u8], at: usize) -> bool
    requires { at ≤ length out.now }
{
    io::write_all(1, &out[0..at])
}
