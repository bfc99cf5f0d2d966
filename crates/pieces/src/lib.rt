// Lent memory: bytes copied into it, zeros filled in, and a part of it lent on.
#![tactic(auto)]

ghost use Rattle.std.specs.Prelude.{◌∷◌, [], ◌≡◌, ◌+◌, ◌<◌, ◌≤◌, length, replicate};
ghost use Rattle.pieces.specs.Memory.{patch, within, Put};

// Copies src into mem from index at on. By a loop, since std's `copy_from_slice` comes to a memmove, which a caller in C would have to bring.
pub fn copy_in(mem: &mut [u8], at: usize, src: &[u8])
    requires { at + length src.now ≤ length mem.old }
    ensures { mem.new ≡ patch mem.old at src.now }
{
    for (i, byte) in src.iter().enumerate() {
        mem[at + i] = *byte;
    }
}

// Writes bytes at an index, and answers the next index.
pub fn put(out: &mut [u8], at: usize, bytes: &[u8]) -> usize
    requires { at + length bytes.now ≤ length out.old }
    ensures { Put out.old at bytes.now out.new result }
{
    copy_in(out, at, bytes);
    at + bytes.len()
}

// A store, and no copy of one byte: the head of each option of a message is written so.
#[tactic(auto, using(crate::proofs::Puts::put_one))]
pub fn put_byte(out: &mut [u8], at: usize, byte: u8) -> usize
    requires { at < length out.old }
    ensures { Put out.old at (byte ∷ []) out.new result }
{
    out[at] = byte;
    at + 1
}

// Writes n zeros into mem from index at on.
pub fn zero_fill(mem: &mut [u8], at: usize, n: usize)
    requires { at + n ≤ length mem.old }
    ensures { mem.new ≡ patch mem.old at (replicate n 0) }
{
    mem[at..at + n].fill(0);
}

// The bytes from one index up to another, lent; none where they aren't all there.
#[tactic(auto, unfolding(crate::specs::Memory::within, crate::specs::Memory::part))]
pub fn within(mem: &[u8], from: usize, to: usize) -> &[u8]
    ensures { result.now ≡ within mem.now from to }
{
    if from <= to && to <= mem.len() {
        return &mem[from..to];
    }
    &[]
}
