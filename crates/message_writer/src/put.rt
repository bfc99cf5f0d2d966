// The bytes of a message, put into an output that has room for them.
ghost use Rattle.std.specs.Prelude.{◌≡◌, true, ◌++◌, ◌+◌, ◌<◌, ◌≤◌, length};
ghost use Rattle.pieces.specs.Memory.{Put};
ghost use Rattle.message_format.specs.Format.{nibble_of, extension, option_head, options_bytes, options_ok, payload_bytes};
ghost use Rattle.message_measure.specs.Given.{options_from, describes};
ghost use Rattle.message_writer.specs.Writer.{opening};

#[tactic(auto, unfolding(message_format::specs::Format::nibble_of))]
fn nibble_of(n: usize) -> u8
    ensures { (result ≡ nibble_of n) × (result < 15) }
{
    match n {
        0..13 => n as u8,
        13..269 => 13,
        _ => 14,
    }
}

#[tactic(auto, unfolding(message_format::specs::Format::extension))]
fn extension(out: &mut [u8], at: usize, n: usize) -> usize
    requires n_bound { n < 65805 }
    requires n_in_bounds { at + length (extension n) ≤ length out.old }
    ensures { Put out.old at (extension n) out.new result }
{
    match n {
        0..13 => at,
        13..269 => pieces::put_byte(out, at, (n - 13) as u8),
        _ => pieces::put(out, at, &((n - 269) as u16).to_be_bytes()),
    }
}

#[tactic(auto, unfolding(message_format::specs::Format::option_head))]
fn option_head(out: &mut [u8], at: usize, delta: usize, len: usize) -> usize
    requires delta_bound { (delta < 65805) × (len < 65805) }
    requires len_in_bounds { at + length (option_head delta len) ≤ length out.old }
    ensures { Put out.old at (option_head delta len) out.new result }
{
    let next = pieces::put_byte(out, at, nibble_of(delta) * 16 + nibble_of(len));
    let next = extension(out, next, delta);
    extension(out, next, len)
}

fn option(out: &mut [u8], at: usize, delta: usize, value: &[u8]) -> usize
    requires delta_bound { (delta < 65805) × (length value.now < 65805) }
    requires value_in_bounds { at + length (option_head delta (length value.now) ++ value.now) ≤ length out.old }
    ensures { Put out.old at (option_head delta (length value.now) ++ value.now) out.new result }
{
    let next = option_head(out, at, delta, value.len());
    pieces::put(out, next, value)
}

pub fn options<'a>(
    out: &mut [u8],
    start: usize,
    numbers: &'a [u32],
    lengths: &'a [u32],
    values: &'a [u8],
) -> usize
    requires values_value { describes numbers.now lengths.now values.now ≡ true }
    requires values_value_2 { options_ok 0 (options_from numbers.now lengths.now values.now) ≡ true }
    requires values_in_bounds { start + length (options_bytes 0 (options_from numbers.now lengths.now values.now)) ≤ length out.old }
    ensures { Put out.old start (options_bytes 0 (options_from numbers.now lengths.now values.now)) out.new result }
{
    let mut to = start;
    let mut before = 0;
    let mut at = 0;
    for (number, len) in numbers.iter().zip(lengths) {
        let number = *number as usize;
        let end = at + *len as usize;
        to = option(out, to, number - before, &values[at..end]);
        before = number;
        at = end;
    }
    to
}

#[tactic(auto, unfolding(message_format::specs::Format::head_bytes, crate::specs::Writer::opening))]
pub fn head(out: &mut [u8], message_type: u8, code: u8, message_id: u16, token: &[u8]) -> usize
    requires message_type_bound { (message_type ≤ 3) × (length token.now ≤ 8) }
    requires token_in_bounds { 4 + length token.now ≤ length out.old }
    ensures { Put out.old 0 (opening message_type code message_id token.now) out.new result }
{
    let first = 64 + message_type * 16 + token.len() as u8;
    let at = pieces::put(out, 0, &[first, code]);
    let at = pieces::put(out, at, &message_id.to_be_bytes());
    pieces::put(out, at, token)
}

// The marker, and the payload; nothing where there is none.
#[tactic(auto, unfolding(message_format::specs::Format::payload_bytes))]
pub fn payload(out: &mut [u8], at: usize, payload: &[u8]) -> usize
    requires { at + length (payload_bytes payload.now) ≤ length out.old }
    ensures { Put out.old at (payload_bytes payload.now) out.new result }
{
    if payload.is_empty() {
        return at;
    }
    let next = pieces::put_byte(out, at, 255);
    pieces::put(out, next, payload)
}
