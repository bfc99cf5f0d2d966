// The bounds of a chunk.
#![tactic(auto)]

ghost use Rattle.std.specs.Prelude.{◌≡◌};
ghost use Rattle.chunks.specs.Chunk.{chunk_of};

use block_value::BlockValue;
use refusal::Refusal;

// The bytes from..to of a payload, with the block value that they are sent under.
#[derive(Clone, Copy)]
pub struct Chunk {
    pub block: BlockValue,
    pub from: usize,
    pub to: usize,
}

// The chunk of a payload of `len` bytes that the block value asks for.
pub fn chunk_of(block: BlockValue, len: usize) -> Result<Chunk, Refusal>
    ensures { result ≡ chunk_of block len }
{
    let size = block_value::size(block);
    let from = block_value::start(block);
    if len <= from {
        return Err(Refusal::PastTheEnd);
    }
    let end = from + size;
    let asked = BlockValue {
        num: block.num,
        more: end < len,
        size_exponent: block.size_exponent,
    };
    Ok(Chunk {
        block: asked,
        from,
        to: end.min(len),
    })
}
