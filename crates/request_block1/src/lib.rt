// A request's Block1 value: strict mode's checks, and the block spliced into the key's piece of the upload memory.
#![tactic(auto)]

ghost use Rattle.std.specs.Prelude.{◌≡◌, ◌≤◌, length};
ghost use Rattle.request_block1.specs.Block1.{bad_form, not_next, length_met, taken_as, taken, piece_taken};

use block_state::Assembled;
use block_value::BlockValue;
use config::Config;
use refusal::Refusal;

// What a block that is taken comes to: more are awaited after n bytes, or n bytes are the body.
#[derive(Clone, Copy)]
pub enum Taken {
    More(usize),
    Body(usize),
}

fn bad_form(block: BlockValue, p: usize) -> bool
    ensures { result ≡ bad_form block p }
{
    let size = block_value::size(block);
    (block.size_exponent == 7) | (size < p) | (block.more & !(p == size))
}

fn not_next(assembled: Assembled, block: BlockValue) -> bool
    ensures { result ≡ not_next assembled block }
{
    let at_end = block_value::start(block) == assembled.len as usize;
    let no_larger = block.size_exponent <= assembled.exponent;
    !(block.num == 0) & !(at_end & no_larger)
}

fn length_met(strict: bool, assembled: Assembled, block: BlockValue) -> usize
    ensures { (result ≡ length_met strict assembled block) × (result ≤ assembled.len) }
{
    if strict & (block.num == 0) {
        return 0;
    }
    assembled.len as usize
}

fn taken_as(more: bool, spliced: Result<usize, Refusal>) -> Result<Taken, Refusal>
    ensures { result ≡ taken_as more spliced }
{
    let n = spliced?;
    if more {
        return Ok(Taken::More(n));
    }
    Ok(Taken::Body(n))
}

// A block that is given and agreed on, maybe_handle_request_block1 in the Rust: strict mode's checks, then the splice.
pub fn handle_request_block1(
    config: Config,
    assembled: Assembled,
    piece: &mut [u8],
    payload: &[u8],
    block: BlockValue,
) -> Result<Taken, Refusal>
    requires { (length piece.old ≡ config.upload) × (assembled.len ≤ length piece.old) }
    ensures value { result ≡ taken config assembled block (length payload.now) }
    ensures piece_after { piece.new ≡ piece_taken config assembled piece.old block payload.now result }
{
    if config.strict & bad_form(block, payload.len()) {
        return Err(Refusal::BadForm);
    }
    if config.strict & not_next(assembled, block) {
        return Err(Refusal::NotNext);
    }
    let len = length_met(config.strict, assembled, block);
    let start = block_value::start(block);
    let size = block_value::size(block);
    taken_as(
        block.more,
        splicing::extending_splice(piece, len, start, size, payload),
    )
}
