// CoAP messages in hex on standard input, one a line and any number of them: the parts of each, a line on standard output. Why a line is
// unreadable goes to standard error.
#![tactic(auto)]

ghost use Rattle.std.specs.Prelude.{◌≡◌, ◌+◌, ◌%◌, ◌^◌, ◌<◌, true, not, [], ◌∷◌, length, if◌then◌else◌};
ghost use Rattle.line_input.specs.Sizes.{text_size};
ghost use Rattle.hex_line.specs.Line.{hex_of, is_unread};
ghost use Rattle.coapdump.specs.Lines.{Room, Says, unread_in, Ended};

use ending::Ending;
use std::io::Read;

// Whether a line was unreadable, and whether what it says was written.
#[derive(Clone, Copy)]
struct Printed {
    unread: bool,
    written: bool,
}

// How many lines were printed and how many of them are unreadable, where the text starts that has not ended, and whether all was written: a flag
// beside them, since they count after a failed write too.
#[derive(Clone, Copy)]
struct Rest {
    number: u64,
    unreadable: u64,
    from: usize,
    written: bool,
}

// The text of the longest line.
const DIGITS: usize = 131070;

// The bytes of the longest line.
const BYTES: usize = 65535;

// What the longest line says: 8 bytes for each of its bytes, and 64. Why a line is unreadable has room behind it.
const OUTPUT: usize = 524428;

// Each line is written at once, so that none waits for the next. What is written stands at the start of the output.
fn print_line(
    number: u64,
    line: &[u8],
    digits: &mut [u8],
    bytes: &mut [u8],
    out: &mut [u8],
) -> Printed
    requires { Room digits.old bytes.old out.old }
    ensures unread_value { result.unread ≡ is_unread (hex_of line.now) }
    ensures says { Says number line.now out.new }
{
    let shown = message_text::put_line(out, 0, number, line, digits, bytes);
    let end = shown.end;
    let hex = shown.hex;
    let last = message_text::put_reason(out, end, number, hex);
    let unread = hex_line::is_unread(hex);
    let written = line_input::print(out, end);
    io::write_all(2, &out[end..last]);
    Printed { unread, written }
}

// One more where a line is unreadable.
fn counted(unread: u64, more: bool) -> u64
    ensures { result ≡ (unread + (if more then 1 else 0)) % 2 ^ 64 }
{
    unread.wrapping_add(u64::from(more))
}

// Prints each line that has ended in the text, up to a write that fails, and counts on. No contract can say what is written.
fn print_lines(
    so_far: Rest,
    text: &[u8],
    digits: &mut [u8],
    bytes: &mut [u8],
    out: &mut [u8],
) -> Rest
    requires { Room digits.old bytes.old out.old }
    ensures { result.written ≡ true → Ended so_far.number so_far.unreadable text.now result.number result.unreadable result.from }
{
    let mut number = so_far.number;
    let mut unreadable = so_far.unreadable;
    let mut from = 0;
    let mut end = script_cut::mark_from(text, 0, b'\n');
    while end < text.len() {
        number = number.wrapping_add(1);
        let printed = print_line(number, &text[from..end], digits, bytes, out);
        unreadable = counted(unreadable, printed.unread);
        if !printed.written {
            return Rest {
                number,
                unreadable,
                from,
                written: false,
            };
        }
        from = end + 1;
        end = script_cut::mark_from(text, from, b'\n');
    }
    Rest {
        number,
        unreadable,
        from,
        written: true,
    }
}

// How the program ends where nothing more is printed.
fn stopped(rest: Rest, failed: bool) -> Ending
    ensures { result ≡ record { unreadable = rest.unreadable; read_failed = failed; write_failed = not rest.written } }
{
    Ending {
        unreadable: rest.unreadable,
        read_failed: failed,
        write_failed: !rest.written,
    }
}

// At the end of the input: what has not ended is a line if it is not empty.
fn print_last(
    so_far: Rest,
    failed: bool,
    text: &[u8],
    digits: &mut [u8],
    bytes: &mut [u8],
    out: &mut [u8],
) -> Ending
    requires { Room digits.old bytes.old out.old }
    ensures unreadable_value { (result.unreadable ≡ (so_far.unreadable + unread_in (text.now ∷ [])) % 2 ^ 64) × (result.read_failed ≡ failed) }
    ensures says { 0 < length text.now → Says ((so_far.number + 1) % 2 ^ 64) text.now out.new }
{
    if text.is_empty() {
        return stopped(so_far, failed);
    }
    let number = so_far.number.wrapping_add(1);
    let last = print_line(number, text, digits, bytes, out);
    Ending {
        unreadable: counted(so_far.unreadable, last.unread),
        read_failed: failed,
        write_failed: !last.written,
    }
}

fn run<R: Read>(
    input: &mut R,
    text: &mut [u8],
    digits: &mut [u8],
    bytes: &mut [u8],
    out: &mut [u8],
) -> Ending
    requires text_len { length text.old ≡ text_size }
    requires room { Room digits.old bytes.old out.old }
{
    let mut rest = Rest {
        number: 0,
        unreadable: 0,
        from: 0,
        written: io::write_all(1, b"N type code id token options payload\n"),
    };
    if !rest.written {
        return stopped(rest, false);
    }
    let mut held = 0;
    let mut took = line_input::read_on(input, text, 0);
    let mut turns = line_input::turns_left(u64::MAX, 0, took.end);
    while turns > 0 {
        let end = took.end;
        rest = print_lines(rest, &text[0..end], digits, bytes, out);
        if !rest.written {
            return stopped(rest, false);
        }
        held = line_input::keep(text, rest.from, end);
        took = line_input::read_on(input, text, held);
        turns = line_input::turns_left(turns, held, took.end);
    }
    let left = line_input::left_over(held, took);
    print_last(rest, took.failed, &text[0..left], digits, bytes, out)
}

fn main(rt: HostRuntime) {
    let mut input = rt.stdin();
    let mut text = line_input::text();
    let mut digits = buffers::zeros::<DIGITS>();
    let mut bytes = buffers::zeros::<BYTES>();
    let mut out = buffers::zeros::<OUTPUT>();
    let ended = run(&mut input, &mut text, &mut digits, &mut bytes, &mut out);
    ending::end(b"coapdump", ended);
}
