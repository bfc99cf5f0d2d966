// One line, whatever it is: a call, a fresh start, or the state shown.
#![tactic(auto)]

ghost use Rattle.std.specs.Prelude.{◌+◌, ◌*◌, ◌≤◌, length};
ghost use Rattle.fresh_start.specs.Leaves.{Left};
ghost use Rattle.script_state.specs.Start.{much};
ghost use Rattle.line_input.specs.Sizes.{longest};
ghost use Rattle.script.specs.Line.{line_of};
ghost use Rattle.script_print.specs.Run.{Ran};
ghost use Rattle.buffers.specs.Sizes.{line_room, memory_size};
ghost use Rattle.line_runner.specs.Line.{Lent, called_in, shown_in, controlled_in, line_in};

use replay_control::Control;
use script::Line;
use script_state::Step;

// A line that is a call, or that cannot be read: read, called, printed.
fn run_line(
    step: Step,
    line: &[u8],
    upload: &mut [u8],
    response: &mut [u8],
    scratch: &mut [u8],
    out: &mut [u8],
) -> Step
    requires line_len_bound { (length line.now ≤ 2 * length scratch.old) × (length scratch.old ≤ memory_size) }
    requires upload_len_bound { (length upload.old ≤ memory_size) × (length response.old ≤ memory_size) × (step.at + line_room ≤ length out.old) }
    ensures { Ran step upload.old response.old (line_of line.now) out.old result upload.new response.new out.new }
{
    match script::read_line(line, scratch) {
        Some(Line::Request(r)) => script_request::ask(step, r, upload, response, scratch, out),
        Some(Line::Response(r)) => script_response::reply(step, r, upload, response, scratch, out),
        None => script_print::unread(step, out),
    }
}

// The same on as much of each memory as the configuration has.
fn run(
    step: Step,
    line: &[u8],
    upload: &mut [u8],
    response: &mut [u8],
    scratch: &mut [u8],
    out: &mut [u8],
) -> Step
    requires lent { Lent upload.old response.old scratch.old out.old }
    requires line_len_bound { (length line.now ≤ longest) × (step.at ≤ much) }
    ensures { Left (called_in line.now) step upload.old response.old out.old result upload.new response.new out.new }
{
    let u = buffers::memory_of(step.state.config.upload);
    let v = buffers::memory_of(step.state.config.response);
    run_line(
        step,
        line,
        &mut upload[0..u],
        &mut response[0..v],
        scratch,
        out,
    )
}

// The state, as it is.
fn show<'a>(step: Step, upload: &'a [u8], response: &'a [u8], out: &mut [u8]) -> Step
    requires { (memory_size ≤ length upload.now) × (memory_size ≤ length response.now) × (step.at + line_room ≤ length out.old) }
    ensures { Left shown_in step upload.now response.now out.old result upload.now response.now out.new }
{
    let u = buffers::memory_of(step.state.config.upload);
    let v = buffers::memory_of(step.state.config.response);
    let at = state_text::put_state(
        out,
        step.at,
        step.state.number,
        step.state.table,
        &upload[0..u],
        &response[0..v],
    );
    Step { at, ..step }
}

// A line of a replay: a fresh start, the state shown, or a line as a script has it.
fn run_control(
    step: Step,
    line: &[u8],
    upload: &mut [u8],
    response: &mut [u8],
    scratch: &mut [u8],
    out: &mut [u8],
) -> Step
    requires lent { Lent upload.old response.old scratch.old out.old }
    requires line_len_bound { (length line.now ≤ longest) × (step.at ≤ much) }
    ensures { Left (controlled_in line.now) step upload.old response.old out.old result upload.new response.new out.new }
{
    match replay_control::control_of(line) {
        Some(Control::Fresh(config)) => fresh_start::begin(config, step, upload, response, out),
        Some(Control::Show) => show(step, upload, response, out),
        None => run(step, line, upload, response, scratch, out),
    }
}

// A line without its end; its number is counted already.
pub fn run_any(
    replay: bool,
    step: Step,
    line: &[u8],
    upload: &mut [u8],
    response: &mut [u8],
    scratch: &mut [u8],
    out: &mut [u8],
) -> Step
    requires lent { Lent upload.old response.old scratch.old out.old }
    requires at_le_much { step.at ≤ much }
    ensures { Left (line_in replay line.now) step upload.old response.old out.old result upload.new response.new out.new }
{
    if line_input::LONGEST < line.len() {
        return script_print::unread(step, out);
    }
    if replay {
        return run_control(step, line, upload, response, scratch, out);
    }
    run(step, line, upload, response, scratch, out)
}
