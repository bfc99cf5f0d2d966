// What a line of hex says. Blanks at its ends are no part of it, and its digits are of either case.
#![tactic(auto)]

ghost use Rattle.std.specs.Prelude.{◌≡◌, map, ◌+◌, ◌≤◌, length};
ghost use Rattle.pieces.specs.Memory.{patch};
ghost use Rattle.line_input.specs.Sizes.{longest};
ghost use Rattle.script_fields.specs.Fields.{pairs_of};
ghost use Rattle.hex_line.specs.Line.{is_blank, start_of, end_of, lower, bad_at, digits_say, most_digits, hex_of, bytes_of, Filled, is_unread};

// Two digits for each of 65,535 bytes.
const MOST_DIGITS: usize = 131070;

// Why a line is unreadable.
#[derive(Clone, Copy, Debug, PartialEq, Eq)]
pub enum Why {
    // The line as it stands, which may be cut.
    LongLine,
    // What it says.
    TooLong,
    // The first character that is no hex digit, counted from 1 in the line as it stands.
    NoDigit(usize),
    Odd,
}

// So many bytes; none in an empty line or a comment.
pub type Hex = Result<Option<usize>, Why>;

#[tactic(auto, unfolding(crate::specs::Line::is_blank))]
fn is_blank(x: u8) -> bool
    ensures { result ≡ is_blank x }
{
    matches!(x, b' ' | b'\t' | b'\r')
}

fn start_of(line: &[u8]) -> usize
    ensures { result ≡ start_of line.now }
{
    for (i, x) in line.iter().enumerate() {
        if !is_blank(*x) {
            return i;
        }
    }
    line.len()
}

fn end_of(line: &[u8]) -> usize
    ensures { (result ≡ end_of line.now) × (result ≤ length line.now) }
{
    let mut rest = line;
    while let [front @ .., last] = rest {
        if !is_blank(*last) {
            return rest.len();
        }
        rest = front;
    }
    0
}

// Copies a text in lower case to the start of a buffer.
fn put_lower(out: &mut [u8], text: &[u8])
    requires { length text.now ≤ length out.old }
    ensures { out.new ≡ patch out.old 0 (map lower text.now) }
{
    for (i, x) in text.iter().enumerate() {
        out[i] = x.to_ascii_lowercase();
    }
}

fn bad_at(text: &[u8]) -> usize
    ensures { result ≡ bad_at text.now }
{
    for (i, x) in text.iter().enumerate() {
        if script_fields::nibble_of(*x).is_none() {
            return i;
        }
    }
    text.len()
}

// What a text in lower case says, with so many bytes before it in its line.
fn read_digits(start: usize, text: &[u8], bytes: &mut [u8]) -> Hex
    requires start_le_longest { (start ≤ longest) × (length text.now ≤ most_digits) }
    requires in_bounds { 65535 ≤ length bytes.old }
    ensures value { result ≡ digits_say start text.now }
    ensures filled { Filled result (pairs_of text.now) bytes.new }
{
    let bad = bad_at(text);
    if bad < text.len() {
        return Err(Why::NoDigit(start + bad + 1));
    }
    let Some(n) = script_fields::decode_pairs(text, bytes) else {
        return Err(Why::Odd);
    };
    Ok(Some(n))
}

// What a line says; its text is left in one buffer, and its bytes in another.
pub fn read_line(line: &[u8], text: &mut [u8], bytes: &mut [u8]) -> Hex
    requires { (most_digits ≤ length text.old) × (65535 ≤ length bytes.old) }
    ensures value { result ≡ hex_of line.now }
    ensures filled { Filled result (bytes_of line.now) bytes.new }
{
    if line_input::LONGEST < line.len() {
        return Err(Why::LongLine);
    }
    let start = start_of(line);
    let end = end_of(line);
    if end <= start || line[start] == b'#' {
        return Ok(None);
    }
    let n = end - start;
    if MOST_DIGITS < n {
        return Err(Why::TooLong);
    }
    put_lower(text, &line[start..end]);
    read_digits(start, &text[..n], bytes)
}

pub fn is_unread(hex: Hex) -> bool
    ensures { result ≡ is_unread hex }
{
    hex.is_err()
}
