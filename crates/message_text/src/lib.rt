// The line of a message, and what is said of a line of hex.
#![tactic(auto)]

ghost use Rattle.std.specs.Prelude.{◌≡◌, ◌++◌, ◌+◌, ◌*◌, ◌≤◌, length};
ghost use Rattle.pieces.specs.Memory.{Put};
ghost use Rattle.message_format.specs.Format.{meaning_of};
ghost use Rattle.script_text.specs.Text.{decimal};
ghost use Rattle.hex_line.specs.Line.{most_digits, hex_of};
ghost use Rattle.message_text.specs.Text.{meaning_text, line_text, because, why_text, reason_text};

use hex_line::{Hex, Why};

// The line's number, and what is said instead of a message.
fn put_verdict(out: &mut [u8], at: usize, number: u64, verdict: &[u8]) -> usize
    requires { at + 20 + length verdict.now ≤ length out.old }
    ensures put { Put out.old at (decimal number ++ verdict.now) out.new result }
    ensures upper_bound { result ≤ at + 20 + length verdict.now }
{
    let k = script_text::put_decimal(out, at, number);
    pieces::put(out, k, verdict)
}

// What the bytes of a message mean.
fn put_message(out: &mut [u8], at: usize, number: u64, message: &[u8]) -> usize
    requires { at + 8 * length message.now + 64 ≤ length out.old }
    ensures put { Put out.old at (meaning_text number (meaning_of message.now)) out.new result }
    ensures upper_bound { result ≤ at + 8 * length message.now + 64 }
{
    let Ok(packet) = message::from_bytes(message) else {
        return put_verdict(out, at, number, b" refused-11 - - - - -\n");
    };
    let kind = packet.message_type;
    let code = packet.code;
    let id = packet.message_id;
    let k = head_text::put_head(out, at, number, kind, code, id);
    parts_text::put_parts(out, k, message, packet)
}

// Where what is said of a line ends, and what its hex says.
#[derive(Clone, Copy)]
pub struct Shown {
    pub end: usize,
    pub hex: Hex,
}

// What is said of a line on standard output. Its text and its bytes are left in buffers.
pub fn put_line(
    out: &mut [u8],
    at: usize,
    number: u64,
    line: &[u8],
    text: &mut [u8],
    bytes: &mut [u8],
) -> Shown
    requires most_digits_in_bounds { (most_digits ≤ length text.old) × (65535 ≤ length bytes.old) }
    requires at_in_bounds { at + 524344 ≤ length out.old }
    ensures hex_value { result.hex ≡ hex_of line.now }
    ensures put { Put out.old at (line_text number line.now) out.new result.end }
    ensures end_bound { result.end ≤ at + 524344 }
{
    let hex = hex_line::read_line(line, text, bytes);
    match hex {
        Ok(None) => Shown { end: at, hex },
        Ok(Some(n)) => {
            let end = put_message(out, at, number, &bytes[..n]);
            Shown { end, hex }
        }
        Err(_) => {
            let end = put_verdict(out, at, number, b" unreadable - - - - -\n");
            Shown { end, hex }
        }
    }
}

// The program's name, the line's number, and why it is unreadable.
fn put_because(out: &mut [u8], at: usize, number: u64, why: &[u8]) -> usize
    requires { at + 35 + length why.now ≤ length out.old }
    ensures put { Put out.old at (because number why.now) out.new result }
    ensures upper_bound { result ≤ at + 35 + length why.now }
{
    let k = pieces::put(out, at, b"coapdump: line ");
    put_verdict(out, k, number, why)
}

fn put_why(out: &mut [u8], at: usize, number: u64, why: Why) -> usize
    requires { at + 84 ≤ length out.old }
    ensures put { Put out.old at (why_text number why) out.new result }
    ensures upper_bound { result ≤ at + 84 }
{
    match why {
        Why::LongLine => put_because(out, at, number, b": longer than 200000 characters\n"),
        Why::TooLong => put_because(out, at, number, b": longer than 65535 bytes\n"),
        Why::NoDigit(i) => {
            let k = put_because(out, at, number, b": character ");
            let k = script_text::put_decimal(out, k, i as u64);
            pieces::put(out, k, b" is no hex digit\n")
        }
        Why::Odd => put_because(out, at, number, b": an odd number of digits\n"),
    }
}

// What is said of a line on standard error.
pub fn put_reason(out: &mut [u8], at: usize, number: u64, hex: Hex) -> usize
    requires { at + 84 ≤ length out.old }
    ensures put { Put out.old at (reason_text number hex) out.new result }
    ensures upper_bound { result ≤ at + 84 }
{
    match hex {
        Ok(_) => at,
        Err(why) => put_why(out, at, number, why),
    }
}
