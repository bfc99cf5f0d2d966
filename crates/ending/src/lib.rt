// How a program ends: what it says of it on standard error, and the exit code that it reports. A program has no exit code of its own: it writes it to
// descriptor 3, and who opened that makes the code of it.
#![tactic(auto)]

ghost use Rattle.std.specs.Prelude.{◌≡◌, ◌+◌, ◌*◌, ◌≤◌, length};
ghost use Rattle.pieces.specs.Memory.{Put};
ghost use Rattle.ending.specs.Ending.{exit_code, sentence, unread_text, ending_text, report_text};

// How many lines were unreadable; whether the input could not be read to its end, and the output not written.
#[derive(Clone, Copy)]
pub struct Ending {
    pub unreadable: u64,
    pub read_failed: bool,
    pub write_failed: bool,
}

#[tactic(auto, using(std::proofs::lemmas::Bool::Decides::nat_tests), unfolding(crate::specs::Ending::exit_code))]
fn exit_code(ending: Ending) -> u8
    ensures { (result ≡ exit_code ending) × (result ≤ 2) }
{
    if ending.read_failed || ending.write_failed {
        2
    } else if ending.unreadable == 0 {
        0
    } else {
        1
    }
}

// What is said of a failure, if there was one.
fn put_sentence(out: &mut [u8], at: usize, failed: bool, program: &[u8], what: &[u8]) -> usize
    requires { at + length program.now + length what.now ≤ length out.old }
    ensures put { Put out.old at (sentence failed program.now what.now) out.new result }
    ensures upper_bound { result ≤ at + length program.now + length what.now }
{
    if !failed {
        return at;
    }
    let k = pieces::put(out, at, program);
    pieces::put(out, k, what)
}

// How many lines were unreadable, if any was.
fn put_unread(out: &mut [u8], at: usize, program: &[u8], unread: u64) -> usize
    requires { at + length program.now + 41 ≤ length out.old }
    ensures put { Put out.old at (unread_text program.now unread) out.new result }
    ensures upper_bound { result ≤ at + length program.now + 41 }
{
    if unread == 0 {
        return at;
    }
    let k = pieces::put(out, at, program);
    let number = pieces::put(out, k, b": unreadable lines: ");
    let end = script_text::put_decimal(out, number, unread);
    pieces::put_byte(out, end, b'\n')
}

// All that is said.
fn put_ending(out: &mut [u8], at: usize, program: &[u8], ending: Ending) -> usize
    requires { at + 3 * length program.now + 120 ≤ length out.old }
    ensures put { Put out.old at (ending_text program.now ending) out.new result }
    ensures upper_bound { result ≤ length out.old }
{
    let k = put_sentence(
        out,
        at,
        ending.read_failed,
        program,
        b": cannot read standard input\n",
    );
    let l = put_sentence(
        out,
        k,
        ending.write_failed,
        program,
        b": cannot write standard output\n",
    );
    put_unread(out, l, program, ending.unreadable)
}

// The exit code as a digit, and a line end.
fn report_of(ending: Ending) -> [u8; 2]
    ensures value { result ≡ report_text ending }
    ensures value_2 { 2 ≡ length result }
{
    [b'0' + exit_code(ending), b'\n']
}

// Says how the program ended, and reports it. No contract can say what is written.
pub fn end(program: &[u8], ending: Ending)
    requires { length program.now ≤ 20 }
{
    let mut out = io::buffer();
    let at = put_ending(&mut out, 0, program, ending);
    let report = report_of(ending);
    io::write_all(2, &out[0..at]);
    io::write_all(3, &report);
}
