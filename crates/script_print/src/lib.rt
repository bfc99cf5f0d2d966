// What a line prints: an answer, or that it cannot be read.
#![tactic(auto)]

ghost use Rattle.std.specs.Prelude.{◌≡◌, ◌+◌, ◌≤◌, length};
ghost use Rattle.pieces.specs.Memory.{Put};
ghost use Rattle.script.specs.Line.{unreadable};
ghost use Rattle.answer_text.specs.Answer.{unreadable_text};
ghost use Rattle.script_print.specs.Run.{with_table, state_after, answered};
ghost use Rattle.buffers.specs.Sizes.{memory_size, line_room};

use block_state::Answer;
use block_table::Table;
use script_state::{State, Step};

// An answer, with what it shows of the message's payload and of the memories as the call left them. The table is the one that the call left.
pub fn print<'a>(
    step: Step,
    table: Table,
    answer: Answer,
    payload: &'a [u8],
    upload: &'a [u8],
    response: &'a [u8],
    out: &mut [u8],
) -> Step
    requires payload_len_bound { (length payload.now ≤ memory_size) × (length upload.now ≤ memory_size) × (length response.now ≤ memory_size) }
    requires line_room_in_bounds { step.at + line_room ≤ length out.old }
    ensures state_value { result.state ≡ with_table step.state table }
    ensures put { Put out.old step.at (answered step.state answer payload.now upload.now response.now) out.new result.at }
    ensures at_bound { result.at ≤ step.at + line_room }
    ensures written_value { result.written ≡ step.written }
{
    let number = step.state.number;
    let bytes = answer_text::shown(answer, payload, upload, response);
    let at = answer_text::put_answer(out, step.at, number, answer, bytes);
    Step {
        state: State {
            table,
            ..step.state
        },
        at,
        written: step.written,
    }
}

// A line that cannot be read is counted, and changes nothing else.
pub fn unread(step: Step, out: &mut [u8]) -> Step
    requires { step.at + line_room ≤ length out.old }
    ensures state_value { result.state ≡ state_after step.state unreadable step.state.table }
    ensures put { Put out.old step.at (unreadable_text step.state.number) out.new result.at }
    ensures at_bound { result.at ≤ step.at + line_room }
    ensures written_value { result.written ≡ step.written }
{
    let state = step.state;
    let number = state.number;
    let at = answer_text::put_unreadable(out, step.at, number);
    Step {
        state: State {
            unreadable: state.unreadable.wrapping_add(1),
            ..state
        },
        at,
        written: step.written,
    }
}
