// A response's step, on its key's state and its piece of the response memory.
#![tactic(auto)]

ghost use Rattle.std.specs.Prelude.{◌≡◌, ◌++◌, ◌+◌, ◌^◌, ◌<◌, ◌≤◌, true, length};
ghost use Rattle.pieces.specs.Memory.{patch};
ghost use Rattle.chunks.specs.Chunk.{chunk_of};
ghost use Rattle.block_state.specs.State.{caching, with_cached};
ghost use Rattle.block_state.specs.Step.{left};
ghost use Rattle.response_step.specs.Step.{chunked, step_response};
ghost use Rattle.block_state.specs.Contract.{replying};

use block_state::{Answer, BlockState, Cached, Part, ResponseNumbers, Stepped, state};
use block_value::BlockValue;
use config::Config;
use refusal::Refusal;

// Copies head, then payload, to the start of the piece.
fn cache_in<'a>(piece: &mut [u8], head: &'a [u8], payload: &'a [u8])
    requires { length head.now + length payload.now ≤ length piece.old }
    ensures { piece.new ≡ patch piece.old 0 (head.now ++ payload.now) }
{
    pieces::copy_in(piece, 0, head);
    pieces::copy_in(piece, head.len(), payload);
}

fn caching_state(state: BlockState, head: usize, payload: usize) -> BlockState
    requires { (head ≤ 128) × (payload < 2 ^ 32) }
    ensures { result ≡ with_cached state (caching head payload) }
{
    let cached = Cached {
        held: true,
        head: head as u8,
        payload: payload as u32,
    };
    state::with_cached(state, cached)
}

// The response is cached, and the chunk asked for goes out; refused where head and payload do not fit the piece.
fn cache_response<'a>(
    config: Config,
    state: BlockState,
    piece: &mut [u8],
    head: &'a [u8],
    payload: &'a [u8],
    block: BlockValue,
    part: Part,
) -> Stepped
    requires { (length piece.old ≡ config.response) × (length piece.old < 2 ^ 32) × (length head.now ≤ 128) × (block.more ≡ true) }
    ensures { left result.state piece.new result.answer
        ≡ chunked config state piece.old head.now payload.now (Ok (record { block = block; from = part.from; to = part.to })) }
{
    let h = head.len();
    let p = payload.len();
    if piece.len() < h {
        return state::refused(state, Refusal::NoRoom);
    }
    if piece.len() - h < p {
        return state::refused(state, Refusal::NoRoom);
    }
    cache_in(piece, head, payload);
    state::answered(caching_state(state, h, p), Answer::First(block, part))
}

fn serve_response<'a>(
    config: Config,
    state: BlockState,
    piece: &mut [u8],
    head: &'a [u8],
    payload: &'a [u8],
    block: BlockValue,
) -> Stepped
    requires { (length piece.old ≡ config.response) × (length piece.old < 2 ^ 32) × (length head.now ≤ 128) }
    ensures { left result.state piece.new result.answer
        ≡ chunked config state piece.old head.now payload.now (chunk_of block (length payload.now)) }
{
    let chunk = match chunks::chunk_of(block, payload.len()) {
        Ok(chunk) => chunk,
        Err(why) => return state::refused(state, why),
    };
    let part = Part {
        from: chunk.from,
        to: chunk.to,
    };
    if chunk.block.more {
        return cache_response(config, state, piece, head, payload, chunk.block, part);
    }
    state::answered(state, Answer::Whole(chunk.block, part))
}

// A response, on its key's piece of the response memory.
pub fn step_response<'a>(
    config: Config,
    state: BlockState,
    piece: &mut [u8],
    numbers: ResponseNumbers,
    head: &'a [u8],
    payload: &'a [u8],
) -> Stepped
    requires { (length piece.old ≡ config.response) × (length piece.old < 2 ^ 32) × (length head.now ≤ 128) }
    ensures { left result.state piece.new result.answer ≡ step_response config state piece.old (replying numbers head.now payload.now) }
{
    if numbers.own {
        return state::answered(state, Answer::Plain);
    }
    let recorded = state::recorded_block(state.recorded);
    match negotiation::negotiate_block_size_if_necessary(
        config,
        recorded,
        numbers.bare,
        payload.len(),
    ) {
        Err(why) => state::refused(state, why),
        Ok(None) => state::answered(state, Answer::Plain),
        Ok(Some(block)) => serve_response(config, state, piece, head, payload, block),
    }
}
