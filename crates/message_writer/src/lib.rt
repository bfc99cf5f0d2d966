// CoAP messages (RFC 7252), written into a lent buffer: measured before the first byte, so a refused one leaves it untouched.
#![tactic(auto)]

mod put;

ghost use Rattle.std.specs.Prelude.{◌≡◌};
ghost use Rattle.message_measure.specs.Given.{given};
ghost use Rattle.message_writer.specs.Writer.{Writes, refusal_number};

// No such message has an encoding, what is given describes none, or the output is too small for it.
#[derive(Clone, Copy, Debug, PartialEq, Eq)]
pub struct NotWritten;

// Its number among the refusals.
impl From<NotWritten> for u8 {
    ghost from_gives = { λ why number. number ≡ refusal_number why };

    fn from(_not_written: NotWritten) -> u8 {
        21
    }
}

// Writes a whole message: Packet::to_bytes in the Rust. The options are given by their numbers, the lengths of their values, and the values
// one after another: three slices, as C lends them.
pub fn to_bytes<'a>(
    out: &mut [u8],
    message_type: u8,
    code: u8,
    message_id: u16,
    token: &'a [u8],
    numbers: &'a [u32],
    lengths: &'a [u32],
    values: &'a [u8],
    payload: &'a [u8],
) -> Result<usize, NotWritten>
    ensures { Writes out.old (given message_type code message_id token.now
        numbers.now lengths.now values.now payload.now) out.new result }
{
    if !message_measure::takes(
        out.len(),
        message_type,
        code,
        token,
        numbers,
        lengths,
        values,
        payload,
    ) {
        return Err(NotWritten);
    }
    let at = put::head(out, message_type, code, message_id, token);
    let at = put::options(out, at, numbers, lengths, values);
    Ok(put::payload(out, at, payload))
}
