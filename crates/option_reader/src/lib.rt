// The options of a message, taken one by one.
#![tactic(auto)]

ghost use Rattle.std.specs.Prelude.{◌≡◌, ◌≤◌, length, drop};
ghost use Rattle.message_format.specs.Format.{options_of};
ghost use Rattle.option_reader.specs.Reader.{RunOf, ends_of, found_from};

use message_format::Malformed;

// The bytes from `from` on, up to `to` and without it. The reader stands apart from the handler, which has a `Part` of its own.
#[repr(C)]
#[derive(Clone, Copy)]
pub struct Part {
    pub from: usize,
    pub to: usize,
}

// What a run of options comes to: how many bytes are left after it, with the last number; or at the end of the options.
// More or End: two answers of one run, and neither is a refusal.
#[derive(Clone, Copy)]
enum Run {
    More { left: usize, number: u16 },
    End(usize),
}

// How many calls a run of options may take: some two kilobytes of stack.
const CALLS: usize = 32;

// Takes the options one by one, until the payload marker or the end, by a call on the rest of the message. Each call keeps its place on the stack,
// so after as many as it was allowed it says where it stands.
fn take_options(rest: &[u8], before: u16, calls: usize) -> Result<Run, Malformed>
    ensures { RunOf before rest.now calls result }
{
    if calls == 0 {
        return Ok(Run::More {
            left: rest.len(),
            number: before,
        });
    }
    let Some(option) = one_option::next_in(rest, before)? else {
        return Ok(Run::End(rest.len()));
    };
    take_options(&rest[option.to..], option.number, calls - 1)
}

// How many bytes are left where the options end that begin at an index: as many runs of options as there are.
pub fn options_end(message: &[u8], start: usize) -> Result<usize, Malformed>
    requires { start ≤ length message.now }
    ensures { result ≡ ends_of (options_of 0 (drop start message.now)) }
{
    let mut at = start;
    let mut last: u16 = 0;
    loop {
        match take_options(&message[at..], last, CALLS)? {
            Run::More { left, number } => {
                at = message.len() - left;
                last = number;
            }
            Run::End(left) => return Ok(left),
        }
    }
}

// The value of the n-th option of a number, the first being 0, of a message that was read and whose options begin at an index.
pub fn nth_option(message: &[u8], options: usize, wanted: u16, n: usize) -> Option<Part>
    ensures { result ≡ found_from message.now options 0 wanted n }
{
    let mut at = options;
    let mut last: u16 = 0;
    let mut left = n;
    loop {
        let Ok(Some(option)) = one_option::next_option(message, at, last) else {
            return None;
        };
        if option.number == wanted {
            if left == 0 {
                return Some(Part {
                    from: option.from,
                    to: option.to,
                });
            }
            left -= 1;
        }
        at = option.to;
        last = option.number;
    }
}
