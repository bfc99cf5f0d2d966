// Where a script stands, and what a program does around its lines: the start, the count, the output that waits.
#![tactic(auto)]

ghost use Rattle.std.specs.Prelude.{◌≡◌, ◌≤◌, true, false, length, if◌then◌else◌, nat_lt};
ghost use Rattle.pieces.specs.Memory.{Put};
ghost use Rattle.script_state.specs.Start.{script_config, header, begun, counted_in, much};

use block_table::Table;
use config::Config;

// Where the script stands: the configuration, the table, the number of the last line, and how many lines were unreadable.
#[derive(Clone, Copy)]
pub struct State {
    pub config: Config,
    pub table: Table,
    pub number: u64,
    pub unreadable: u64,
}

// What a line leaves, where the next output goes, and whether all output that is due was written. A step whose write failed is a step still: its state is told.
#[derive(Clone, Copy)]
pub struct Step {
    pub state: State,
    pub at: usize,
    pub written: bool,
}

// Output that waits at most while lines are run: more is written.
pub const MUCH: usize = 65536;

fn script_config() -> Config
    ensures { result ≡ script_config }
{
    Config {
        strict: false,
        limit: 64,
        lifetime: 120000,
        upload: 2048,
        response: 1024,
    }
}

// Before the first line: an empty table, and the header in the output.
pub fn start(out: &mut [u8]) -> Step
    requires { 32 ≤ length out.old }
    ensures state_value { result.state ≡ begun }
    ensures put { Put out.old 0 header out.new result.at }
    ensures at_le_much { result.at ≤ much }
    ensures written_value { result.written ≡ true }
{
    let at = pieces::put(out, 0, b"line answer block1 block2 bytes\n");
    Step {
        state: State {
            config: script_config(),
            table: block_table::fresh(),
            number: 0,
            unreadable: 0,
        },
        at,
        written: true,
    }
}

// One more line is counted.
pub fn counted(step: Step) -> Step
    ensures { result ≡ counted_in step }
{
    Step {
        state: State {
            number: step.state.number.wrapping_add(1),
            ..step.state
        },
        ..step
    }
}

// Writes on, unless an earlier write failed.
fn print_on(written: bool, out: &[u8], at: usize) -> bool
    requires { at ≤ length out.now }
    ensures { written ≡ false → result ≡ false }
{
    written && line_input::print(out, at)
}

// Writes what waits, where it is more than so much. Once a write has failed nothing more is written.
pub fn flushed(out: &[u8], step: Step, most: usize) -> Step
    requires { step.at ≤ length out.now }
    ensures state_value { (result.state ≡ step.state) × (result.at ≡ (if nat_lt most step.at then 0 else step.at)) }
    ensures written_value { step.at ≤ most → result.written ≡ step.written }
    ensures written_value_2 { step.written ≡ false → result.written ≡ false }
{
    if step.at <= most {
        return step;
    }
    let written = print_on(step.written, out, step.at);
    Step {
        at: 0,
        written,
        ..step
    }
}
