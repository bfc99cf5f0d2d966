// The buffers that a program lends, each all zeros. Lending one as a slice needs its length.
#![tactic(auto)]

ghost use Rattle.std.specs.Prelude.{◌≡◌, ◌≤◌, length, replicate};
ghost use Rattle.buffers.specs.Sizes.{scratch_size, memory_size, output_size, memory_of};

// Half of the longest line that is read.
const SCRATCH: usize = 100000;

// The longest piece that a program lends, and sixteen of them. The limits allow a longer U: a call under one then gets refusal 1 for its memory.
const PIECE: usize = 65536;

const MEMORY: usize = 16 * PIECE;

// A whole memory in hex, with what stands before it, behind what waits.
const OUTPUT: usize = 2200000;

// So many zeros. Lending them as a slice needs their length.
pub fn zeros<const N: usize>() -> [u8; N]
    ensures value { result ≡ replicate N 0 }
    ensures len { N ≡ length result }
{
    [0; N]
}

// The bytes of a line's fields.
pub fn scratch() -> [u8; SCRATCH]
    ensures value { result ≡ replicate scratch_size 0 }
    ensures scratch_size_value { scratch_size ≡ length result }
{
    zeros()
}

// Sixteen pieces of the longest length.
pub fn memory() -> [u8; MEMORY]
    ensures value { result ≡ replicate memory_size 0 }
    ensures memory_size_value { memory_size ≡ length result }
{
    zeros()
}

// Output that waits.
pub fn output() -> [u8; OUTPUT]
    ensures value { result ≡ replicate output_size 0 }
    ensures output_size_value { output_size ≡ length result }
{
    zeros()
}

// How much of a memory is used by pieces of this length.
pub fn memory_of(piece: usize) -> usize
    ensures { (result ≡ memory_of piece) × (result ≤ memory_size) }
{
    16 * piece.min(PIECE)
}
