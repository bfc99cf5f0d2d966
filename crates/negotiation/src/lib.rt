// The size negotiation, and the option that counts as absent.
#![tactic(auto)]

ghost use Rattle.std.specs.Prelude.{◌≡◌, ◌^◌, ◌<◌, ◌≤◌, min};
ghost use Rattle.block_value.specs.Value.{block_size, block_start};
ghost use Rattle.negotiation.specs.Negotiation.{option_of, request_block, reply_of, reply_at, negotiated};

use block_value::BlockValue;
use config::Config;
use refusal::Refusal;

// The most that a Block1 and a Block2 option add to a message.
const BLOCK_OPTIONS_MAX_LENGTH: usize = 12;

// The block value of an option, where the message has one. One that cannot be read counts as absent.
pub fn request_block(config: Config, given: bool, option: &[u8]) -> Option<BlockValue>
    ensures { result ≡ request_block config (option_of given option.now) }
{
    if given {
        // Unreadable counts as absent: with no block value the call goes on.
        let Some(block) = block_option::read(config.strict, option) else {
            return None;
        };
        return Some(block);
    }
    None
}

fn reply_of(made: Option<BlockValue>) -> Result<Option<BlockValue>, Refusal>
    ensures { result ≡ reply_of made }
{
    let block = made.ok_or(Refusal::NoBlockValue)?;
    Ok(Some(block))
}

// The reply to a block that starts at `offset`, for `size` bytes, unrounded: what is made need neither start there nor hold that byte.
fn reply_at(
    config: Config,
    offset: usize,
    size: usize,
    total_payload_size: usize,
) -> Result<Option<BlockValue>, Refusal>
    requires { (offset < 2 ^ 43) × (size ≤ 2048) }
    ensures { result ≡ reply_at config offset size total_payload_size }
{
    if size == 0 {
        return Err(Refusal::NoBlockValue);
    }
    let more = offset + size < total_payload_size;
    reply_of(block_value::make(config.strict, offset / size, more, size))
}

fn reply_to(
    config: Config,
    block: BlockValue,
    total_payload_size: usize,
    max_block_size: usize,
) -> Result<Option<BlockValue>, Refusal>
    ensures { result ≡ reply_at config (block_start block) (min (block_size block) max_block_size) total_payload_size }
{
    let size = block_value::size(block).min(max_block_size);
    reply_at(config, block_value::start(block), size, total_payload_size)
}

// The block value to answer with, or None where there is to be none, for a message of `bare` bytes besides its payload.
pub fn negotiate_block_size_if_necessary(
    config: Config,
    request_block: Option<BlockValue>,
    bare: usize,
    total_payload_size: usize,
) -> Result<Option<BlockValue>, Refusal>
    ensures { result ≡ negotiated config request_block bare total_payload_size }
{
    if config.limit < BLOCK_OPTIONS_MAX_LENGTH {
        return Err(Refusal::TooLargeToEncode);
    }
    let room = config.limit - BLOCK_OPTIONS_MAX_LENGTH;
    if room < bare {
        return Err(Refusal::TooLargeToEncode);
    }
    let max_block_size = room - bare;
    if let Some(block) = request_block {
        return reply_to(config, block, total_payload_size, max_block_size);
    }
    if total_payload_size < max_block_size {
        return Ok(None);
    }
    reply_of(block_value::make(config.strict, 0, true, max_block_size))
}
