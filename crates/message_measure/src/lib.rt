// Whether a message is taken, before a byte of it is written.
#![tactic(auto)]

ghost use Rattle.std.specs.Prelude.{◌≡◌, cond, true, ℕ, ◌+◌, ◌≤◌, leb, eqb, length};
ghost use Rattle.message_format.specs.Format.{extension, payload_bytes};
ghost use Rattle.message_measure.specs.Given.{given, takes};
ghost use Rattle.message_measure.specs.Rooms.{room_after, room_after_option};

// How many bytes extend the nibble of a delta or a length.
#[tactic(auto, unfolding(message_format::specs::Format::extension))]
fn extension_length(n: usize) -> usize
    ensures { (result ≡ length (extension n)) × (result ≤ 2) }
{
    match n {
        0..13 => 0,
        13..269 => 1,
        _ => 2,
    }
}

// What one option leaves of the room, of a number after `before` and with so many bytes of values left, if it has an encoding and fits.
#[tactic(auto, unfolding(crate::specs::Rooms::option_fits, message_format::specs::Format::option_head))]
fn option(room: usize, before: usize, number: usize, len: usize, values: usize) -> Option<usize>
    ensures { result ≡ room_after_option room before number len values }
{
    if number < before || 65535 < number || 65804 < len || values < len {
        return None;
    }
    let head = 1 + extension_length(number - before) + extension_length(len);
    room.checked_sub(head + len)
}

// What all options leave of the room, if they have an encoding and fit.
fn options<'a>(
    room: usize,
    numbers: &'a [u32],
    lengths: &'a [u32],
    values: &'a [u8],
) -> Option<usize>
    ensures { result ≡ room_after 0 room numbers.now lengths.now values.now }
{
    if numbers.len() != lengths.len() {
        return None;
    }
    let mut left = room;
    let mut before = 0;
    let mut at = 0;
    for (number, len) in numbers.iter().zip(lengths) {
        let number = *number as usize;
        let len = *len as usize;
        left = option(left, before, number, len, values.len() - at)?;
        before = number;
        at += len;
    }
    if at < values.len() {
        return None;
    }
    Some(left)
}

// Whether the payload and its marker fit.
#[tactic(auto, unfolding(message_format::specs::Format::payload_bytes))]
fn payload_fits(room: usize, payload: &[u8]) -> bool
    ensures { result ≡ leb (length (payload_bytes payload.now)) room }
{
    payload.is_empty() || payload.len() < room
}

// "A code of 0.00 (empty) has token length 0 and nothing after the message ID."
fn empty_ok(code: u8, token: usize, options: usize, payload: usize) -> bool
    ensures { result ≡ cond (eqb code 0) (eqb (token + options + payload) 0) true }
{
    code != 0 || token == 0 && options == 0 && payload == 0
}

// It asks for no message ID: each of 16 bits has an encoding.
pub fn takes<'a>(
    room: usize,
    message_type: u8,
    code: u8,
    token: &'a [u8],
    numbers: &'a [u32],
    lengths: &'a [u32],
    values: &'a [u8],
    payload: &'a [u8],
) -> bool
    ensures { (id : ℕ) → id ≤ 65535 → result ≡ takes room (given message_type code id token.now
        numbers.now lengths.now values.now payload.now) }
{
    if 3 < message_type || 8 < token.len() {
        return false;
    }
    if !empty_ok(code, token.len(), numbers.len(), payload.len()) {
        return false;
    }
    let Some(room) = room.checked_sub(4 + token.len()) else {
        return false;
    };
    let Some(left) = options(room, numbers, lengths, values) else {
        return false;
    };
    payload_fits(left, payload)
}
