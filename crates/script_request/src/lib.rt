// A line that says a request: called, and its answer printed.
#![tactic(auto)]

ghost use Rattle.std.specs.Prelude.{◌+◌, ◌≤◌, length, Some};
ghost use Rattle.script.specs.Line.{InBuffer};
ghost use Rattle.script_print.specs.Run.{Ran};
ghost use Rattle.script_request.specs.Asked.{asked};
ghost use Rattle.buffers.specs.Sizes.{memory_size, line_room};

use block_state::RequestNumbers;
use script::{Line, Request};
use script_state::Step;

// A request. Its fields' bytes stand in the buffer.
pub fn ask<'a>(
    step: Step,
    r: Request,
    upload: &mut [u8],
    response: &'a [u8],
    scratch: &'a [u8],
    out: &mut [u8],
) -> Step
    requires in_buffer { InBuffer (Some (Line.Request r)) scratch.now × (length scratch.now ≤ memory_size) }
    requires upload_len_bound { (length upload.old ≤ memory_size) × (length response.now ≤ memory_size) × (step.at + line_room ≤ length out.old) }
    ensures { Ran step upload.old response.now (asked r scratch.now) out.old result upload.new response.now out.new }
{
    let k = r.call.key;
    let p = r.call.payload;
    let o1 = r.block1;
    let o2 = r.block2;
    let numbers = RequestNumbers {
        time: r.call.time,
        bare: r.call.bare,
        given1: r.given1,
        given2: r.given2,
    };
    let outcome = block_handler::intercept_request(
        step.state.config,
        step.state.table,
        upload,
        response,
        numbers,
        &scratch[..k],
        &scratch[p..o1],
        &scratch[o1..o2],
        &scratch[k..p],
    );
    let table = outcome.table;
    let answer = outcome.answer;
    script_print::print(step, table, answer, &scratch[k..p], upload, response, out)
}
