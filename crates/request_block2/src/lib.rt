// A request's Block2 value: recorded, and served from the cache.
#![tactic(auto)]

ghost use Rattle.std.specs.Prelude.{◌≡◌, List, ℕ, ◌^◌, ◌<◌};
ghost use Rattle.chunks.specs.Chunk.{chunk_of};
ghost use Rattle.block_state.specs.Step.{left};
ghost use Rattle.request_block2.specs.Block2.{served, onward};

use block_state::{Answer, BlockState, Part, Served, Stepped, state};
use block_value::BlockValue;

// Serves the chunk that the block asks for from the cache, whose piece begins at `away`: maybe_serve_cached_response in the Rust.
fn serve_cached_response(
    away: usize,
    state: BlockState,
    block1: Option<BlockValue>,
    block2: BlockValue,
) -> Stepped
    requires { away < 2 ^ 32 }
    ensures { (u : List ℕ) → left result.state u result.answer ≡ served away state u block1 (chunk_of block2 state.cached.payload) }
{
    let cached = state.cached;
    let chunk = match chunks::chunk_of(block2, cached.payload as usize) {
        Ok(chunk) => chunk,
        Err(why) => return state::refused(state, why),
    };
    let next = state::with_cached(state, state::kept_while(chunk.block.more, cached));
    let start = away + usize::from(cached.head);
    let head = Part {
        from: away,
        to: start,
    };
    let part = Part {
        from: start + chunk.from,
        to: start + chunk.to,
    };
    let served = Served {
        block1,
        block2: chunk.block,
        head,
        chunk: part,
    };
    state::answered(next, Answer::Served(served))
}

// Records the Block2 value and serves from the cache, or goes on with `otherwise`.
pub fn maybe_handle_request_block2(
    away: usize,
    state: BlockState,
    block2: Option<BlockValue>,
    block1: Option<BlockValue>,
    otherwise: Answer,
) -> Stepped
    requires { away < 2 ^ 32 }
    ensures { (u : List ℕ) → left result.state u result.answer ≡ onward away state u block2 block1 otherwise }
{
    let next = state::with_recorded(state, block2);
    let Some(block) = block2 else {
        return state::answered(next, otherwise);
    };
    if state.cached.held {
        return serve_cached_response(away, next, block1, block);
    }
    state::answered(next, otherwise)
}
