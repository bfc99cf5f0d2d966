// One option of a message, read where it stands.
#![tactic(auto)]

ghost use Rattle.std.specs.Prelude.{◌≡◌, ◌+◌, ◌≤◌, ◌<◌, length, drop};
ghost use Rattle.message_format.specs.Format.{extras, extended, option_in, next_in};
ghost use Rattle.one_option.specs.Index.{next_at};

use message_format::{Malformed, OptionPlace};

// How many bytes extend a nibble.
#[tactic(auto, unfolding(message_format::specs::Format::extras))]
fn extra_bytes(nibble: usize) -> usize
    ensures { (result ≡ extras nibble) × (result ≤ 2) }
{
    match nibble {
        13 => 1,
        14 => 2,
        _ => 0,
    }
}

// The delta or the length that a nibble and the bytes at `at` stand for.
#[tactic(auto, unfolding(message_format::specs::Format::extras, message_format::specs::Format::extended))]
fn extend(bytes: &[u8], at: usize, nibble: usize) -> usize
    requires nibble_bound { nibble < 15 }
    requires nibble_in_bounds { at + extras nibble ≤ length bytes.now }
    ensures { (result ≡ extended nibble (drop at bytes.now)) × (result < 65805) }
{
    match nibble {
        13 => usize::from(bytes[at]) + 13,
        14 => usize::from(u16::from_be_bytes([bytes[at], bytes[at + 1]])) + 269,
        _ => nibble,
    }
}

// The option whose first byte holds these nibbles.
#[tactic(auto, unfolding(message_format::specs::Format::option_in))]
fn option_in(
    bytes: &[u8],
    before: u16,
    delta: usize,
    len: usize,
) -> Result<Option<OptionPlace>, Malformed>
    requires { (delta < 16) × (len < 16) × (0 < length bytes.now) }
    ensures { result ≡ option_in before delta len (drop 1 bytes.now) }
{
    if delta == 15 || len == 15 {
        return Err(Malformed);
    }
    let second = 1 + extra_bytes(delta);
    let from = second + extra_bytes(len);
    if bytes.len() < from {
        return Err(Malformed);
    }
    let length = extend(bytes, second, len);
    if bytes.len() - from < length {
        return Err(Malformed);
    }
    let number = usize::from(before) + extend(bytes, 1, delta);
    if 65535 < number {
        return Err(Malformed);
    }
    Ok(Some(OptionPlace {
        number: number as u16,
        from,
        to: from + length,
    }))
}

// What stands where the bytes begin, after an option of the number `before`: an option, the end of the options, or neither. A call for each
// option of a message that is read, so it is part of its callers.
#[inline(always)]
#[tactic(auto, unfolding(message_format::specs::Format::next_in, message_format::specs::Format::marked))]
pub fn next_in(bytes: &[u8], before: u16) -> Result<Option<OptionPlace>, Malformed>
    ensures { result ≡ next_in before bytes.now }
{
    match bytes {
        [] => Ok(None),
        [255] => Err(Malformed),
        [255, ..] => Ok(None),
        [first, ..] => option_in(
            bytes,
            before,
            usize::from(first / 16),
            usize::from(first % 16),
        ),
    }
}

// The option that begins at an index of a message that was read, after one of the number `before`. The first begins where the options do, after 0;
// each other where the value of the one before it ends. Past the end there is none.
pub fn next_option(message: &[u8], at: usize, before: u16) -> Result<Option<OptionPlace>, Malformed>
    ensures { result ≡ next_at message.now at before }
{
    if message.len() < at {
        return Ok(None);
    }
    let Some(option) = next_in(&message[at..], before)? else {
        return Ok(None);
    };
    Ok(Some(OptionPlace {
        number: option.number,
        from: at + option.from,
        to: at + option.to,
    }))
}
