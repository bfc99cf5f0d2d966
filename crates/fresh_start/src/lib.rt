// A fresh start of a replay, and what any line leaves of what is lent to it.
#![tactic(auto)]

ghost use Rattle.std.specs.Prelude.{◌+◌, ◌≤◌, length};
ghost use Rattle.buffers.specs.Sizes.{memory_size, line_room};
ghost use Rattle.fresh_start.specs.Leaves.{fresh_in, Left};

use config::Config;
use script_state::{State, Step};

// A fresh start: an empty table, and memories of zeros.
pub fn begin(
    config: Config,
    step: Step,
    upload: &mut [u8],
    response: &mut [u8],
    out: &mut [u8],
) -> Step
    requires { (memory_size ≤ length upload.old) × (memory_size ≤ length response.old) × (step.at + line_room ≤ length out.old) }
    ensures { Left (fresh_in config) step upload.old response.old out.old result upload.new response.new out.new }
{
    let u = buffers::memory_of(config.upload);
    let v = buffers::memory_of(config.response);
    pieces::zero_fill(upload, 0, u);
    pieces::zero_fill(response, 0, v);
    let at = replay_control::put_config(out, step.at, step.state.number);
    let table = block_table::fresh();
    Step {
        state: State {
            config,
            table,
            ..step.state
        },
        at,
        written: step.written,
    }
}
