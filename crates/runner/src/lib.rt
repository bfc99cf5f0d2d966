// The run of a script, line by line, which both programs make.
#![tactic(auto)]

ghost use Rattle.std.specs.Prelude.{◌≡◌, not};

use ending::Ending;
use line_input::Took;
use script_state::Step;

mod lines;

pub use lines::{run_last, run_lines};

// What many lines leave, and where the text starts that has not ended.
#[derive(Clone, Copy)]
pub struct Rest {
    pub step: Step,
    pub from: usize,
}

// How a program ends, by where its script stands and what its last read took.
pub fn ended(step: Step, took: Took) -> Ending
    ensures { result ≡ record { unreadable = step.state.unreadable; read_failed = took.failed; write_failed = not step.written } }
{
    Ending {
        unreadable: step.state.unreadable,
        read_failed: took.failed,
        write_failed: !step.written,
    }
}
