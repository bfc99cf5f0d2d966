// A line that says a response: called, and its answer printed.
#![tactic(auto)]

ghost use Rattle.std.specs.Prelude.{◌+◌, ◌≤◌, length, Some};
ghost use Rattle.script.specs.Line.{InBuffer};
ghost use Rattle.script_print.specs.Run.{Ran};
ghost use Rattle.script_response.specs.Replied.{replied};
ghost use Rattle.buffers.specs.Sizes.{memory_size, line_room};

use block_state::ResponseNumbers;
use script::{Line, Response};
use script_state::Step;

// A response. Its fields' bytes stand in the buffer.
pub fn reply<'a>(
    step: Step,
    r: Response,
    upload: &'a [u8],
    response: &mut [u8],
    scratch: &'a [u8],
    out: &mut [u8],
) -> Step
    requires in_buffer { InBuffer (Some (Line.Response r)) scratch.now × (length scratch.now ≤ memory_size) }
    requires upload_len_bound { (length upload.now ≤ memory_size) × (length response.old ≤ memory_size) × (step.at + line_room ≤ length out.old) }
    ensures { Ran step upload.now response.old (replied r scratch.now) out.old result upload.now response.new out.new }
{
    let k = r.call.key;
    let p = r.call.payload;
    let h = r.head;
    let numbers = ResponseNumbers {
        time: r.call.time,
        bare: r.call.bare,
        own: r.own,
    };
    let outcome = block_handler::intercept_response(
        step.state.config,
        step.state.table,
        upload,
        response,
        numbers,
        &scratch[..k],
        &scratch[p..h],
        &scratch[k..p],
    );
    let table = outcome.table;
    let answer = outcome.answer;
    script_print::print(step, table, answer, &scratch[k..p], upload, response, out)
}
