// The numbers of both memories, as the line of the state has them.
ghost use Rattle.std.specs.Prelude.{◌≡◌, ◌+◌, ◌≤◌, length};
ghost use Rattle.pieces.specs.Memory.{Put};
ghost use Rattle.state_text.specs.Memory.{fnv_of, word_text, memories_text};

// FNV's prime, 2^40 + 435.
const PRIME: u64 = 1099511628211;

// The 64-bit FNV-1a of some bytes.
fn fnv(bytes: &[u8]) -> u64
    ensures { result ≡ fnv_of bytes.now }
{
    let mut h: u64 = 14695981039346656037;
    for b in bytes {
        h = (h ^ u64::from(*b)).wrapping_mul(PRIME);
    }
    h
}

// Sixteen hex digits.
fn put_word(out: &mut [u8], at: usize, x: u64) -> usize
    requires { at + 16 ≤ length out.old }
    ensures put { Put out.old at (word_text x) out.new result }
    ensures value { result ≡ at + 16 }
{
    let bytes = x.to_be_bytes();
    script_text::put_hex(out, at, &bytes)
}

// Each memory's number, and the line's end.
pub fn put_memories<'a>(out: &mut [u8], at: usize, upload: &'a [u8], response: &'a [u8]) -> usize
    requires { at + 35 ≤ length out.old }
    ensures put { Put out.old at (memories_text upload.now response.now) out.new result }
    ensures upper_bound { result ≤ at + 35 }
{
    let k = put_word(out, at, fnv(upload));
    let k = pieces::put_byte(out, k, b' ');
    let k = put_word(out, k, fnv(response));
    pieces::put_byte(out, k, b'\n')
}
