// The lines of a text, one after another.
ghost use Rattle.std.specs.Prelude.{◌≡◌, false, ◌≤◌, length, take, drop};
ghost use Rattle.script_state.specs.Start.{much};
ghost use Rattle.pieces.specs.Memory.{Put};
ghost use Rattle.buffers.specs.Sizes.{output_size};
ghost use Rattle.line_runner.specs.Line.{Lent};
ghost use Rattle.runner.specs.Lines.{lines_in, waits_in, after_last, last_text, unended, standing};

use crate::Rest;
use line_runner::run_any;
use script_state::Step;

// Runs each line that has ended in the text. The output that is left waits.
pub fn run_lines(
    replay: bool,
    step: Step,
    text: &[u8],
    upload: &mut [u8],
    response: &mut [u8],
    scratch: &mut [u8],
    out: &mut [u8],
) -> Rest
    requires lent { Lent upload.old response.old scratch.old out.old }
    requires at_le_much { step.at ≤ much }
    ensures response_after { standing result.step.state upload.new response.new ≡ lines_in replay step.state upload.old response.old text.now }
    ensures out_after { take result.step.at out.new ≡ waits_in replay step.state upload.old response.old (take step.at out.old) text.now }
    ensures from_in_bounds { (result.from ≤ length text.now) × (drop result.from text.now ≡ unended text.now) }
    ensures at_le_much_2 { (result.step.at ≤ much) × (step.written ≡ false → result.step.written ≡ false) }
{
    let mut here = step;
    let mut from = 0;
    let mut end = script_cut::mark_from(text, 0, b'\n');
    while end < text.len() {
        let next = script_state::counted(here);
        let ran = run_any(
            replay,
            next,
            &text[from..end],
            upload,
            response,
            scratch,
            out,
        );
        here = script_state::flushed(out, ran, script_state::MUCH);
        from = end + 1;
        end = script_cut::mark_from(text, from, b'\n');
    }
    Rest { step: here, from }
}

// At the end of the input: what has not ended is a line if it is not empty.
pub fn run_last(
    replay: bool,
    step: Step,
    text: &[u8],
    upload: &mut [u8],
    response: &mut [u8],
    scratch: &mut [u8],
    out: &mut [u8],
) -> Step
    requires lent { Lent upload.old response.old scratch.old out.old }
    requires at_le_much { step.at ≤ much }
    ensures response_after { standing result.state upload.new response.new ≡ after_last replay (standing step.state upload.old response.old) text.now }
    ensures put { Put out.old step.at (last_text replay (standing step.state upload.old response.old) text.now) out.new result.at }
    ensures at_le_output_size { (result.at ≤ output_size) × (result.written ≡ step.written) }
{
    if text.len() == 0 {
        return step;
    }
    let next = script_state::counted(step);
    run_any(replay, next, text, upload, response, scratch, out)
}
