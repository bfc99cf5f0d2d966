// Unsigned numbers in a fixed number of bytes, big-endian: written to a lent memory, and read from one.
#![tactic(auto)]

ghost use Rattle.std.specs.Prelude.{◌≡◌, ◌+◌, ◌^◌, ◌<◌, ◌≤◌, length};
ghost use Rattle.pieces.specs.Memory.{Put};
ghost use Rattle.big_endian.specs.Numbers.{in_bytes, number_at};

// Writes n in k bytes at an index, and answers the next index.
#[tactic(auto, using(crate::proofs::Numbers::put_turn))]
pub fn put_number(out: &mut [u8], at: usize, k: usize, n: u64) -> usize
    requires { at + k ≤ length out.old }
    ensures { (Put out.old at (in_bytes k n) out.new result) × (result ≡ at + k) }
{
    let mut left = n;
    for i in (0..k).rev() {
        out[at + i] = (left % 256) as u8;
        left /= 256;
    }
    at + k
}

// The number in the k bytes at an index.
pub fn number_at(bytes: &[u8], at: usize, k: usize) -> u64
    requires { (at + k ≤ length bytes.now) × (k ≤ 8) }
    ensures { (result ≡ number_at bytes.now at k) × (result < 256 ^ k) }
{
    let mut n: u64 = 0;
    for byte in &bytes[at..at + k] {
        n = n * 256 + u64::from(*byte);
    }
    n
}
