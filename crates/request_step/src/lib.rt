// A request's step, on its key's state and its piece of the upload memory: Block1, then Block2.
#![tactic(auto)]

ghost use Rattle.std.specs.Prelude.{◌≡◌, List, ℕ, ◌^◌, ◌<◌, length};
ghost use Rattle.block_state.specs.Step.{left};
ghost use Rattle.block_state.specs.Contract.{Room};
ghost use Rattle.request_block1.specs.Block1.{AtMost};
ghost use Rattle.request_step.specs.Step.{on_taken, step_with, asked_by};

use block_state::{Answer, BlockState, Part, RequestNumbers, Stepped, state};
use block_value::BlockValue;
use config::Config;
use refusal::Refusal;
use request_block1::Taken;

// A request's numbers, once its options are read.
#[derive(Clone, Copy)]
pub struct Asked {
    pub time: u64,
    pub bare: usize,
    pub block1: Option<BlockValue>,
    pub block2: Option<BlockValue>,
}

// Reads the options, once for all that follows.
pub fn read_options<'a>(
    config: Config,
    numbers: RequestNumbers,
    option1: &'a [u8],
    option2: &'a [u8],
) -> Asked
    ensures { result ≡ asked_by config numbers option1.now option2.now }
{
    let block1 = negotiation::request_block(config, numbers.given1, option1);
    let block2 = negotiation::request_block(config, numbers.given2, option2);
    Asked {
        time: numbers.time,
        bare: numbers.bare,
        block1,
        block2,
    }
}

// Goes on once a block of this exponent is taken: the next one is asked for, or the body is complete and Block2 follows.
fn go_on(
    home: usize,
    away: usize,
    state: BlockState,
    block2: Option<BlockValue>,
    exponent: u8,
    reply: BlockValue,
    taken: Result<Taken, Refusal>,
) -> Stepped
    requires { (home < 2 ^ 32) × (away < 2 ^ 32) × AtMost 4294967295 taken }
    ensures { (u : List ℕ) → left result.state u result.answer ≡ on_taken home away state u block2 exponent reply taken }
{
    match taken {
        Err(why) => state::refused(state, why),
        Ok(Taken::More(n)) => {
            let next = state::with_assembled(state, n, exponent);
            state::answered(next, Answer::Continue(reply))
        }
        Ok(Taken::Body(n)) => {
            let body = Part {
                from: home,
                to: home + n,
            };
            let next = state::with_assembled(state, 0, 0);
            request_block2::maybe_handle_request_block2(
                away,
                next,
                block2,
                Some(reply),
                Answer::Handed(reply, body),
            )
        }
    }
}

// A request, whose key's upload piece begins at `home` of the upload memory and whose response piece at `away` of the response memory.
pub fn step_request(
    config: Config,
    home: usize,
    away: usize,
    state: BlockState,
    piece: &mut [u8],
    asked: Asked,
    payload: &[u8],
) -> Stepped
    requires { Room config home away state (length piece.old) }
    ensures { left result.state piece.new result.answer ≡ step_with config home away state piece.old asked.bare asked.block1 asked.block2 payload.now }
{
    let block1 = asked.block1;
    let block2 = asked.block2;
    let p = payload.len();
    let agreed = negotiation::negotiate_block_size_if_necessary(config, block1, asked.bare, p);
    let reply = match agreed {
        Err(why) => return state::refused(state, why),
        Ok(None) => {
            return request_block2::maybe_handle_request_block2(
                away,
                state,
                block2,
                None,
                Answer::Pass,
            )
        }
        Ok(Some(reply)) => reply,
    };
    let Some(block) = block1 else {
        return state::answered(state, Answer::TooLarge(reply));
    };
    let assembled = state.assembled;
    let taken = request_block1::handle_request_block1(config, assembled, piece, payload, block);
    go_on(home, away, state, block2, block.size_exponent, reply, taken)
}
