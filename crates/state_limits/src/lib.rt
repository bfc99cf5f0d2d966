// The limits of one key's state, which a lent table may be off, and the bytes that it holds.
#![tactic(auto)]

ghost use Rattle.std.specs.Prelude.{◌≡◌, ◌+◌, ◌^◌, ◌<◌};
ghost use Rattle.block_state.specs.State.{assembled_ok, cached_ok, recorded_ok, state_ok, is_nothing};
ghost use Rattle.block_state.specs.Held.{held_in, held_of};

use block_state::{Assembled, BlockState, Cached, Recorded};
use config::Config;

// What is found where something may be off its limits: whether it is within them, and how many bytes it holds, which are below 2^34 even off them. One look
// gives both, since a call has to look at every entry. Not an `Option`, since the bytes are counted off the limits, too.
#[derive(Clone, Copy)]
pub struct Checked {
    pub ok: bool,
    pub bytes: u64,
}

fn assembled_ok(config: Config, assembled: Assembled) -> bool
    ensures { result ≡ assembled_ok config assembled }
{
    (assembled.len as usize <= config.upload)
        & (assembled.exponent <= 7)
        & ((assembled.len != 0) | (assembled.exponent == 0))
}

// The bytes of a response as it is cached: its head and its payload.
fn cached_bytes(cached: Cached) -> u64
    ensures { (result ≡ cached.head + cached.payload) × (result < 2 ^ 33) }
{
    u64::from(cached.head) + u64::from(cached.payload)
}

fn cached_checked(config: Config, cached: Cached) -> Checked
    ensures { (result.ok ≡ cached_ok config cached) × (result.bytes ≡ held_in cached) × (result.bytes < 2 ^ 33) }
{
    if cached.held {
        let bytes = cached_bytes(cached);
        return Checked {
            ok: (cached.head <= 128) & (bytes <= config.response as u64),
            bytes,
        };
    }
    Checked {
        ok: (cached.head == 0) & (cached.payload == 0),
        bytes: 0,
    }
}

fn recorded_ok(recorded: Recorded) -> bool
    ensures { result ≡ recorded_ok recorded }
{
    if recorded.given {
        return (recorded.num <= 1048575) & (recorded.exponent <= 7);
    }
    (recorded.num == 0) & !recorded.more & (recorded.exponent == 0)
}

pub fn state_checked(config: Config, state: BlockState) -> Checked
    ensures { (result.ok ≡ state_ok config state) × (result.bytes ≡ held_of state) × (result.bytes < 2 ^ 34) }
{
    let held = cached_checked(config, state.cached);
    Checked {
        ok: assembled_ok(config, state.assembled) & held.ok & recorded_ok(state.recorded),
        bytes: u64::from(state.assembled.len) + held.bytes,
    }
}

pub fn state_ok(config: Config, state: BlockState) -> bool
    ensures { result ≡ state_ok config state }
{
    state_checked(config, state).ok
}

// What a state holds, which is below 2^34 even off its limits.
pub fn held_of(state: BlockState) -> u64
    ensures { (result ≡ held_of state) × (result < 2 ^ 34) }
{
    let assembled = u64::from(state.assembled.len);
    if state.cached.held {
        return assembled + cached_bytes(state.cached);
    }
    assembled
}

// The state is zeros, as a free entry's is.
pub fn is_nothing(state: BlockState) -> bool
    ensures { result ≡ is_nothing state }
{
    state == BlockState::default()
}
