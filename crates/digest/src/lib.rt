// A number that equal keys have in common.
#![tactic(auto)]

ghost use Rattle.std.specs.Prelude.{◌≡◌, ◌+◌, ◌%◌, ◌^◌, ◌<◌, ◌≤◌, take};
ghost use Rattle.digest.specs.Digest.{Read, turn, stirred, stirs, digest_of};

// Eight bytes as one number, by one load.
fn word(key: &[u8; 64], i: usize) -> u64
    requires { i + 8 ≤ 64 }
    ensures { Read 8 key.now i result }
{
    u64::from_le_bytes(key[i..i + 8].try_into().unwrap())
}

fn stir(d: u64, w: u64) -> u64
    ensures { result ≡ stirred d w }
{
    d.rotate_left(7).wrapping_add(w)
}

// The lowest `count` bytes of a word.
fn part(w: u64, count: usize) -> u64
    requires { count < 8 }
    ensures { result ≡ w % 256 ^ count }
{
    w & ((1 << (8 * count)) - 1)
}

// The first `words` words of a stored key, stirred.
fn whole(key: &[u8; 64], words: usize) -> u64
    requires { words ≤ 8 }
    ensures { result ≡ stirs key.now words }
{
    let mut d = 0;
    for j in 0..words {
        d = stir(d, word(key, j * 8));
    }
    d
}

// A number of the first `len` bytes alone.
pub fn digest(key: [u8; 64], len: usize) -> u64
    requires { len ≤ 64 }
    ensures { result ≡ digest_of (take len key) }
{
    let words = len / 8;
    let d = whole(&key, words);
    if words < 8 {
        return stir(d, part(word(&key, words * 8), len % 8));
    }
    stir(d, 0)
}
