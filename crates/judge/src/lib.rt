// The checks 1, 2 and 3 before a step, and the key's place.
#![tactic(auto)]

ghost use Rattle.std.specs.Prelude.{◌≡◌, ◌&&◌, ◌≤◌};
ghost use Rattle.judge.specs.Limits.{between, config_ok, memories_ok};
ghost use Rattle.judge.specs.Verdict.{message_ok, verdict_at, verdict_by};

use config::Config;
use places::{Place, Sight};
use refusal::Refusal;

// The lengths of both memories, and of the message: without payload, of its payload, and of its head (0 for a request).
#[derive(Clone, Copy)]
pub struct Lengths {
    pub upload: usize,
    pub response: usize,
    pub bare: usize,
    pub payload: usize,
    pub head: usize,
}

fn between(least: u64, n: u64, most: u64) -> bool
    ensures { result ≡ between least n most }
{
    (least <= n) & (n <= most)
}

pub fn config_ok(config: Config) -> bool
    ensures { result ≡ config_ok config }
{
    between(1, config.limit as u64, 65535)
        & between(1, config.lifetime, 4294967295)
        & between(16, config.upload as u64, 16777216)
        & between(16, config.response as u64, 65536)
}

fn memories_ok(config: Config, u: usize, v: usize) -> bool
    requires { (config.upload ≤ 16777216) × (config.response ≤ 65536) }
    ensures { result ≡ memories_ok config u v }
{
    (u == 16 * config.upload) & (v == 16 * config.response)
}

// u and v are the lengths of the memories.
pub fn numbers_ok(config: Config, u: usize, v: usize) -> bool
    ensures { result ≡ (config_ok config && memories_ok config u v) }
{
    if config_ok(config) {
        return memories_ok(config, u, v);
    }
    false
}

fn message_ok(bare: usize, payload: usize, head: usize) -> bool
    ensures { result ≡ message_ok bare payload head }
{
    (bare <= 65535) & (payload <= 65535) & (head <= 128)
}

// The entry's index, by its place: that it is off the limits comes before the clock, that there is none after it.
fn verdict_at(early: bool, place: Place) -> Result<usize, Refusal>
    ensures { result ≡ verdict_at early place }
{
    match place {
        Place::OffLimits => Err(Refusal::OffLimits),
        Place::None => {
            if early {
                Err(Refusal::ClockBack)
            } else {
                Err(Refusal::TableFull)
            }
        }
        Place::At(i) => {
            if early {
                Err(Refusal::ClockBack)
            } else {
                Ok(i)
            }
        }
    }
}

// Judges a call by what is seen of the table, and by numbers: the index of the entry that it is for.
pub fn judge(config: Config, sight: Sight, time: u64, lengths: Lengths) -> Result<usize, Refusal>
    ensures { result ≡ verdict_by config sight time lengths }
{
    if !numbers_ok(config, lengths.upload, lengths.response) {
        return Err(Refusal::OffLimits);
    }
    if !message_ok(lengths.bare, lengths.payload, lengths.head) {
        return Err(Refusal::OffLimits);
    }
    let place = sight.place;
    verdict_at(time < sight.clock, place)
}
