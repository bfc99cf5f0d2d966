// A script of any length on standard input, with lines that start afresh and lines that show the state.
#![tactic(auto)]

ghost use Rattle.std.specs.Prelude.{◌≡◌, length};
ghost use Rattle.line_input.specs.Sizes.{text_size};
ghost use Rattle.line_runner.specs.Line.{Lent};

use ending::Ending;
use std::io::Read;

// What the lines print that were read at once is written before more is read. A write that failed is the end, and so is a read: a line that was cut by
// it is not run.
fn run<R: Read>(
    input: &mut R,
    text: &mut [u8],
    upload: &mut [u8],
    response: &mut [u8],
    scratch: &mut [u8],
    out: &mut [u8],
) -> Ending
    requires text_len { length text.old ≡ text_size }
    requires lent { Lent upload.old response.old scratch.old out.old }
{
    let mut step = script_state::start(out);
    let mut held = 0;
    let mut took = line_input::read_on(input, text, 0);
    let mut turns = line_input::turns_left(u64::MAX, 0, took.end);
    while turns > 0 {
        let end = took.end;
        let rest = runner::run_lines(true, step, &text[0..end], upload, response, scratch, out);
        held = line_input::keep(text, rest.from, end);
        step = script_state::flushed(out, rest.step, 0);
        if !step.written {
            return runner::ended(step, took);
        }
        took = line_input::read_on(input, text, held);
        turns = line_input::turns_left(turns, held, took.end);
    }
    let rest = line_input::left_over(held, took);
    let last = runner::run_last(true, step, &text[0..rest], upload, response, scratch, out);
    runner::ended(script_state::flushed(out, last, 0), took)
}

fn main(rt: HostRuntime) {
    let mut input = rt.stdin();
    let mut text = line_input::text();
    let mut upload = buffers::memory();
    let mut response = buffers::memory();
    let mut scratch = buffers::scratch();
    let mut out = buffers::output();
    let ended = run(
        &mut input,
        &mut text,
        &mut upload,
        &mut response,
        &mut scratch,
        &mut out,
    );
    ending::end(b"replay", ended);
}
