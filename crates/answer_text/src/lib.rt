// The line of an answer: number, answer, Block1, Block2, and the body or chunk.
#![tactic(auto)]

ghost use Rattle.std.specs.Prelude.{◌≡◌, ◌+◌, ◌*◌, ◌≤◌, length};
ghost use Rattle.pieces.specs.Memory.{Put};
ghost use Rattle.answer_text.specs.Answer.{name_text, bytes_text, blocks_text, answer_text, unreadable_text};
ghost use Rattle.answer_text.specs.Shown.{shown_by, shown_of};

use block_state::{Answer, Kind, Part};
use block_value::BlockValue;

// A refusal's name has its number.
fn put_name(out: &mut [u8], at: usize, kind: Kind, number: u8) -> usize
    requires { at + 28 ≤ length out.old }
    ensures put { Put out.old at (name_text kind number) out.new result }
    ensures upper_bound { result ≤ at + 28 }
{
    match kind {
        Kind::Continue => pieces::put(out, at, b"Continue"),
        Kind::TooLarge => pieces::put(out, at, b"TooLarge"),
        Kind::Handed => pieces::put(out, at, b"Handed"),
        Kind::Pass => pieces::put(out, at, b"Pass"),
        Kind::Served => pieces::put(out, at, b"Served"),
        Kind::Plain => pieces::put(out, at, b"Plain"),
        Kind::Whole => pieces::put(out, at, b"Whole"),
        Kind::First => pieces::put(out, at, b"First"),
        Kind::Refused => {
            let k = pieces::put(out, at, b"refused-");
            script_text::put_decimal(out, k, u64::from(number))
        }
    }
}

// Both with a space before them, and one after.
fn put_blocks(
    out: &mut [u8],
    at: usize,
    block1: Option<BlockValue>,
    block2: Option<BlockValue>,
) -> usize
    requires { at + 103 ≤ length out.old }
    ensures put { Put out.old at (blocks_text block1 block2) out.new result }
    ensures upper_bound { result ≤ at + 103 }
{
    let k = pieces::put_byte(out, at, b' ');
    let k = script_text::put_maybe(out, k, block1);
    let k = pieces::put_byte(out, k, b' ');
    let k = script_text::put_maybe(out, k, block2);
    pieces::put_byte(out, k, b' ')
}

// The body or the chunk, where an answer of this kind has one.
fn put_bytes(out: &mut [u8], at: usize, kind: Kind, bytes: &[u8]) -> usize
    requires { at + 2 * length bytes.now + 1 ≤ length out.old }
    ensures put { Put out.old at (bytes_text kind bytes.now) out.new result }
    ensures upper_bound { result ≤ at + 2 * length bytes.now + 1 }
{
    match kind {
        Kind::Refused | Kind::Continue | Kind::TooLarge | Kind::Plain => {
            pieces::put_byte(out, at, b'-')
        }
        Kind::Handed | Kind::Pass | Kind::Served | Kind::Whole | Kind::First => {
            script_text::put_shown(out, at, bytes)
        }
    }
}

// The line with its end. `bytes` are the body or chunk that the answer names; they are shown where it has one.
pub fn put_answer(out: &mut [u8], at: usize, n: u64, answer: Answer, bytes: &[u8]) -> usize
    requires { at + 2 * length bytes.now + 200 ≤ length out.old }
    ensures put { Put out.old at (answer_text n answer bytes.now) out.new result }
    ensures upper_bound { result ≤ at + 2 * length bytes.now + 200 }
{
    let s = apart::said(answer);
    let k = script_text::put_decimal(out, at, n);
    let k = pieces::put_byte(out, k, b' ');
    let k = put_name(out, k, s.kind, s.number);
    let k = put_blocks(out, k, s.block1, s.block2);
    let k = put_bytes(out, k, s.kind, bytes);
    pieces::put_byte(out, k, b'\n')
}

pub fn put_unreadable(out: &mut [u8], at: usize, n: u64) -> usize
    requires { at + 50 ≤ length out.old }
    ensures put { Put out.old at (unreadable_text n) out.new result }
    ensures upper_bound { result ≤ at + 50 }
{
    let k = script_text::put_decimal(out, at, n);
    pieces::put(out, k, b" unreadable - - -\n")
}

// What an answer of this kind and part shows: Pass the payload, Handed and Served their part of a memory, the others theirs of the payload.
fn shown_by<'a>(
    kind: Kind,
    part: Part,
    payload: &'a [u8],
    upload: &'a [u8],
    response: &'a [u8],
) -> &'a [u8]
    ensures { result.now ≡ shown_by kind part payload.now upload.now response.now }
{
    match kind {
        Kind::Pass => payload,
        Kind::Handed => pieces::within(upload, part.from, part.to),
        Kind::Served => pieces::within(response, part.from, part.to),
        _ => pieces::within(payload, part.from, part.to),
    }
}

// The body or chunk that an answer shows: of the payload, the upload memory or the response memory.
pub fn shown<'a>(
    answer: Answer,
    payload: &'a [u8],
    upload: &'a [u8],
    response: &'a [u8],
) -> &'a [u8]
    ensures { result.now ≡ shown_of answer payload.now upload.now response.now }
{
    let s = apart::said(answer);
    shown_by(s.kind, s.part, payload, upload, response)
}
