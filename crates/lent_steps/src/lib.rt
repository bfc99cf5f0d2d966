// A call's step on an entry by value, with the answer in numbers.
#![tactic(auto)]

ghost use Rattle.std.specs.Prelude.{◌≡◌};
ghost use Rattle.block_state.specs.Contract.{asking, replying};
ghost use Rattle.entries.specs.Entries.{in_use};
ghost use Rattle.replies.specs.Reply.{reply_of};
ghost use Rattle.lent_steps.specs.Lent.{usable, request_room, response_room, request_lent, response_lent, Leaves};

use block_state::{Answer, RequestNumbers, ResponseNumbers, Stepped};
use config::Config;
use entries::Entry;
use refusal::Refusal;
use replies::Reply;

// What a call leaves of an entry, and its answer in numbers.
#[derive(Clone, Copy)]
pub struct Outcome {
    pub entry: Entry,
    pub reply: Reply,
}

// The entry is in use, was not touched later, and its state is within the limits; the piece, of n bytes, is of this size.
fn usable(config: Config, size: usize, time: u64, e: Entry, n: usize) -> bool
    ensures { result ≡ usable config size time e n }
{
    let state = e.state;
    (n == size)
        & (n < 4294967296)
        & e.used
        & (e.touched <= time)
        & state_limits::state_ok(config, state)
}

// Besides, no place in a memory overflows.
fn request_room(config: Config, home: usize, away: usize, time: u64, e: Entry, n: usize) -> bool
    ensures { result ≡ request_room config home away time e n }
{
    usable(config, config.upload, time, e, n) & (home < 4294967296) & (away < 4294967296)
}

// Besides, the head is not too long.
fn response_room(config: Config, time: u64, e: Entry, n: usize, head: usize) -> bool
    ensures { result ≡ response_room config time e n head }
{
    usable(config, config.response, time, e, n) & (head <= 128)
}

fn refused(e: Entry) -> Outcome
    ensures { (result.entry ≡ e) × (result.reply ≡ reply_of (Answer.Refused Refusal.OffLimits)) }
{
    let reply = replies::reply_of(Answer::Refused(Refusal::OffLimits));
    Outcome { entry: e, reply }
}

// The entry is touched, and keeps its key.
fn touched(e: Entry, time: u64, step: Stepped) -> Outcome
    ensures { (result.entry ≡ in_use e.key time step.state) × (result.reply ≡ reply_of step.answer) }
{
    let answer = step.answer;
    let reply = replies::reply_of(answer);
    let key = e.key;
    let state = step.state;
    let entry = Entry {
        key,
        used: true,
        touched: time,
        state,
    };
    Outcome { entry, reply }
}

pub fn request<'a>(
    e: Entry,
    config: Config,
    home: usize,
    away: usize,
    piece: &mut [u8],
    numbers: RequestNumbers,
    block1: &'a [u8],
    block2: &'a [u8],
    payload: &'a [u8],
) -> Outcome
    ensures { Leaves (request_lent config home away numbers.time e piece.old
        (asking numbers block1.now block2.now payload.now)) result.entry piece.new result.reply }
{
    if !request_room(config, home, away, numbers.time, e, piece.len()) {
        return refused(e);
    }
    let state = e.state;
    let asked = request_step::read_options(config, numbers, block1, block2);
    let step = request_step::step_request(config, home, away, state, piece, asked, payload);
    touched(e, numbers.time, step)
}

pub fn response<'a>(
    e: Entry,
    config: Config,
    piece: &mut [u8],
    numbers: ResponseNumbers,
    head: &'a [u8],
    payload: &'a [u8],
) -> Outcome
    ensures { Leaves (response_lent config numbers.time e piece.old
        (replying numbers head.now payload.now)) result.entry piece.new result.reply }
{
    if !response_room(config, numbers.time, e, piece.len(), head.len()) {
        return refused(e);
    }
    let state = e.state;
    let step = response_step::step_response(config, state, piece, numbers, head, payload);
    touched(e, numbers.time, step)
}
