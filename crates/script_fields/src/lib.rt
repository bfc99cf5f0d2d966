// The fields of a line: decimals, bytes in hex, and block options.
#![tactic(auto)]

ghost use Rattle.std.specs.Prelude.{◌≡◌, ◌+◌, ◌*◌, ◌≤◌, ◌<◌, length, IfSome};
ghost use Rattle.script_fields.specs.Fields.{number_of, nibble, is_mark, pairs_decoded, pairs_of, is_bytes, bytes_of, is_given, is_option, option_bytes, Filled, Reads};

// A decimal of any length, leading zeros too, that fits 64 bits.
pub fn number_field(text: &[u8]) -> Option<u64>
    ensures { result ≡ number_of text.now }
{
    if text.is_empty() {
        return None;
    }
    let mut sum: u64 = 0;
    for x in text {
        if !x.is_ascii_digit() {
            return None;
        }
        let d = u64::from(*x - b'0');
        sum = sum.checked_mul(10)?.checked_add(d)?;
    }
    Some(sum)
}

// The number of a lower-case hex digit.
#[tactic(auto, using(std::proofs::lemmas::Bool::Decides::nat_tests), unfolding(crate::specs::Fields::nibble))]
pub fn nibble_of(x: u8) -> Option<u8>
    ensures value { result ≡ nibble x }
    ensures bound { IfSome result (λ d. d < 16) }
{
    match x {
        b'0'..=b'9' => Some(x - b'0'),
        b'a'..=b'f' => Some(x - b'a' + 10),
        _ => None,
    }
}

#[tactic(auto, unfolding(crate::specs::Fields::is_mark))]
fn is_mark(text: &[u8], mark: u8) -> bool
    ensures { result ≡ is_mark text.now mark }
{
    text.len() == 1 && text[0] == mark
}

// Pairs of hex digits, lower case, into the start of a buffer: how many bytes.
pub fn decode_pairs(text: &[u8], out: &mut [u8]) -> Option<usize>
    requires { length text.now ≤ 2 * length out.old }
    ensures value { result ≡ pairs_decoded text.now }
    ensures filled { Filled result (pairs_of text.now) out.new }
{
    if text.len() % 2 == 1 {
        return None;
    }
    let n = text.len() / 2;
    for k in 0..n {
        let high = nibble_of(text[2 * k])?;
        let low = nibble_of(text[2 * k + 1])?;
        out[k] = high * 16 + low;
    }
    Some(n)
}

// Bytes in hex, into a buffer from an index on; a dot is no bytes. The answer is where they end.
pub fn bytes_field(text: &[u8], out: &mut [u8], at: usize) -> Option<usize>
    requires { 2 * at + length text.now ≤ 2 * length out.old }
    ensures { Reads result (is_bytes text.now) text.now out.old at (bytes_of text.now) out.new }
{
    if is_mark(text, b'.') {
        return Some(at);
    }
    if text.is_empty() {
        return None;
    }
    let n = decode_pairs(text, &mut out[at..])?;
    Some(at + n)
}

// A dash is an option that is absent.
#[tactic(auto, unfolding(crate::specs::Fields::is_given))]
pub fn is_given(text: &[u8]) -> bool
    ensures { result ≡ is_given text.now }
{
    !is_mark(text, b'-')
}

// Bytes in hex, or a dash.
pub fn option_field(text: &[u8], out: &mut [u8], at: usize) -> Option<usize>
    requires { 2 * at + length text.now ≤ 2 * length out.old }
    ensures { Reads result (is_option text.now) text.now out.old at (option_bytes text.now) out.new }
{
    if is_mark(text, b'-') {
        return Some(at);
    }
    bytes_field(text, out, at)
}
