// The parts of a state, made anew.
ghost use Rattle.std.specs.Prelude.{◌≡◌, ◌^◌, ◌<◌};
ghost use Rattle.block_state.specs.State.{assembly, kept_while, recording, recorded_block, with_assembled, with_cached, with_recorded};
ghost use Rattle.block_state.specs.Step.{stepped};

use crate::{Answer, Assembled, BlockState, Cached, Recorded, Stepped};
use block_value::BlockValue;
use refusal::Refusal;

pub fn answered(state: BlockState, answer: Answer) -> Stepped
    ensures { result ≡ stepped state answer }
{
    Stepped { state, answer }
}

pub fn refused(state: BlockState, why: Refusal) -> Stepped
    ensures { result ≡ stepped state (Answer.Refused why) }
{
    answered(state, Answer::Refused(why))
}

pub fn with_assembled(state: BlockState, len: usize, exponent: u8) -> BlockState
    requires { len < 2 ^ 32 }
    ensures { result ≡ with_assembled state (assembly len exponent) }
{
    let mut next = state;
    next.assembled = assembly_of(len, exponent);
    next
}

fn assembly_of(len: usize, exponent: u8) -> Assembled
    requires { len < 2 ^ 32 }
    ensures { result ≡ assembly len exponent }
{
    if len == 0 {
        return Assembled {
            len: 0,
            exponent: 0,
        };
    }
    Assembled {
        len: len as u32,
        exponent,
    }
}

pub fn with_cached(state: BlockState, cached: Cached) -> BlockState
    ensures { result ≡ with_cached state cached }
{
    let mut next = state;
    next.cached = cached;
    next
}

pub fn kept_while(more: bool, cached: Cached) -> Cached
    ensures { result ≡ kept_while more cached }
{
    if more {
        return cached;
    }
    Cached {
        held: false,
        head: 0,
        payload: 0,
    }
}

pub fn with_recorded(state: BlockState, block: Option<BlockValue>) -> BlockState
    ensures { result ≡ with_recorded state block }
{
    let mut next = state;
    next.recorded = recording_of(block);
    next
}

pub fn recording_of(block: Option<BlockValue>) -> Recorded
    ensures { result ≡ recording block }
{
    match block {
        None => Recorded {
            given: false,
            more: false,
            exponent: 0,
            num: 0,
        },
        Some(b) => Recorded {
            given: true,
            more: b.more,
            exponent: b.size_exponent,
            num: b.num,
        },
    }
}

pub fn recorded_block(recorded: Recorded) -> Option<BlockValue>
    ensures { result ≡ recorded_block recorded }
{
    if recorded.given {
        return Some(BlockValue {
            num: recorded.num,
            more: recorded.more,
            size_exponent: recorded.exponent,
        });
    }
    None
}
