// Text put into a lent buffer at an index; each answers the next index.
#![tactic(auto)]

ghost use Rattle.std.specs.Prelude.{◌≡◌, ◌+◌, ◌*◌, ◌%◌, ◌<◌, ◌≤◌, length};
ghost use Rattle.pieces.specs.Memory.{Put};
ghost use Rattle.script_text.specs.Text.{decimal, hex_digit, hex, shown, block_text, maybe_text, digit_of};

use block_value::BlockValue;

fn last_digit(n: u64) -> u8
    ensures { result ≡ 48 + n % 10 }
{
    b'0' + (n % 10) as u8
}

// The digits before the last come first, so no digit moves.
pub fn put_decimal(out: &mut [u8], at: usize, n: u64) -> usize
    requires { at + 20 ≤ length out.old }
    ensures put { Put out.old at (decimal n) out.new result }
    ensures upper_bound { result ≤ at + 20 }
{
    if n < 10 {
        return pieces::put_byte(out, at, last_digit(n));
    }
    let next = put_decimal(out, at, n / 10);
    pieces::put_byte(out, next, last_digit(n))
}

#[tactic(auto, using(std::proofs::lemmas::Bool::Decides::nat_tests), unfolding(crate::specs::Text::hex_digit))]
fn hex_digit(d: u8) -> u8
    requires { d < 16 }
    ensures { result ≡ hex_digit d }
{
    if d < 10 { b'0' + d } else { b'a' + (d - 10) }
}

pub fn put_hex(out: &mut [u8], at: usize, bytes: &[u8]) -> usize
    requires { at + 2 * length bytes.now ≤ length out.old }
    ensures put { Put out.old at (hex bytes.now) out.new result }
    ensures value { result ≡ at + 2 * length bytes.now }
{
    let mut k = at;
    for b in bytes {
        out[k] = hex_digit(*b / 16);
        out[k + 1] = hex_digit(*b % 16);
        k += 2;
    }
    k
}

// Hex, and a dot where there are no bytes.
pub fn put_shown(out: &mut [u8], at: usize, bytes: &[u8]) -> usize
    requires { at + 2 * length bytes.now + 1 ≤ length out.old }
    ensures put { Put out.old at (shown bytes.now) out.new result }
    ensures upper_bound { result ≤ at + 2 * length bytes.now + 1 }
{
    if bytes.is_empty() {
        return pieces::put_byte(out, at, b'.');
    }
    put_hex(out, at, bytes)
}

#[tactic(auto, unfolding(crate::specs::Text::digit_of))]
fn digit_of(b: bool) -> u8
    ensures { result ≡ digit_of b }
{
    if b { b'1' } else { b'0' }
}

// num/more/size
fn put_block(out: &mut [u8], at: usize, block: BlockValue) -> usize
    requires { at + 50 ≤ length out.old }
    ensures put { Put out.old at (block_text block) out.new result }
    ensures upper_bound { result ≤ at + 50 }
{
    let more = [b'/', digit_of(block.more), b'/'];
    let k = put_decimal(out, at, u64::from(block.num));
    let k = pieces::put(out, k, &more);
    put_decimal(out, k, block_value::size(block) as u64)
}

// A block value, or a dash.
pub fn put_maybe(out: &mut [u8], at: usize, block: Option<BlockValue>) -> usize
    requires { at + 50 ≤ length out.old }
    ensures put { Put out.old at (maybe_text block) out.new result }
    ensures upper_bound { result ≤ at + 50 }
{
    match block {
        Some(b) => put_block(out, at, b),
        None => pieces::put_byte(out, at, b'-'),
    }
}
