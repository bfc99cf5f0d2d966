// A script of calls on standard input, its first 8 KiB; an answer a line on standard output.
#![tactic(auto)]

ghost use Rattle.std.specs.Prelude.{◌≡◌, ◌≤◌, take};
ghost use Rattle.buffers.specs.Sizes.{output_size};
ghost use Rattle.script_state.specs.Start.{begun};
ghost use Rattle.line_runner.specs.Line.{Lent};
ghost use Rattle.runner.specs.Lines.{standing, after_script, waits_after_script};

use script_state::Step;

// A whole script, from its start on: what is left of its output waits.
fn run_script(
    text: &[u8],
    upload: &mut [u8],
    response: &mut [u8],
    scratch: &mut [u8],
    out: &mut [u8],
) -> Step
    requires { Lent upload.old response.old scratch.old out.old }
    ensures response_after { standing result.state upload.new response.new ≡ after_script (standing begun upload.old response.old) text.now }
    ensures out_after { take result.at out.new ≡ waits_after_script (standing begun upload.old response.old) text.now }
    ensures at_le_output_size { result.at ≤ output_size }
{
    let first = script_state::start(out);
    let rest = runner::run_lines(false, first, text, upload, response, scratch, out);
    let from = rest.from;
    runner::run_last(
        false,
        rest.step,
        &text[from..],
        upload,
        response,
        scratch,
        out,
    )
}

fn main(rt: HostRuntime) {
    let mut input = rt.stdin();
    let mut text = [0u8; 8192];
    let mut upload = buffers::memory();
    let mut response = buffers::memory();
    let mut scratch = buffers::scratch();
    let mut out = buffers::output();
    let took = line_input::read_full(&mut input, &mut text);
    let end = took.end;
    let last = run_script(
        &text[..end],
        &mut upload,
        &mut response,
        &mut scratch,
        &mut out,
    );
    let done = script_state::flushed(&out, last, 0);
    if end == 8192 {
        io::write_all(
            2,
            b"blockscript: read 8192 bytes and no more, a line cut there as it stands; ./replay reads a script of any length\n",
        );
    }
    ending::end(b"blockscript", runner::ended(done, took));
}
