// The block value of a Block1 or Block2 option: make, size, start. Its bytes are in `block_option`.
#![tactic(auto)]

ghost use Rattle.std.specs.Prelude.{◌≡◌, ◌*◌, ◌^◌, ◌<◌, ◌≤◌};
ghost use Rattle.block_value.specs.Value.{largest_power, made, block_size, block_start};

#[derive(Clone, Copy, Debug, PartialEq, Eq)]
pub struct BlockValue {
    pub num: u32,
    pub more: bool,
    // Its size and its written form take the low three bits.
    pub size_exponent: u8,
}

// The exponent of the largest power of two that does not exceed target.
fn largest_power_of_2_not_in_excess(target: usize) -> usize
    requires { 0 < target }
    ensures { result ≡ largest_power 63 target }
{
    let mut exponent: usize = 0;
    let mut power: usize = 1;
    while power <= target / 2 {
        power = power * 2;
        exponent += 1;
    }
    exponent
}

// Makes a block value, of a num up to the mode's limit. There is none of size 0, nor of 4,096 or more.
pub fn make(strict: bool, num: usize, more: bool, size: usize) -> Option<BlockValue>
    ensures { result ≡ made strict num more size }
{
    if size == 0 {
        return None;
    }
    let exponent = largest_power_of_2_not_in_excess(size);
    if 11 < exponent {
        return None;
    }
    if config::num_limit(strict) < num {
        return None;
    }
    Some(BlockValue {
        num: num as u32,
        more,
        size_exponent: exponent.saturating_sub(4) as u8,
    })
}

pub fn size(block: BlockValue) -> usize
    ensures { result ≡ block_size block }
{
    let exponent = block.size_exponent;
    16usize << (exponent % 8)
}

fn times(num: u32, size: usize) -> usize
    requires { size ≤ 2048 }
    ensures { (result ≡ num * size) × (result < 2 ^ 43) }
{
    (num as usize) * size
}

// Where the block starts in what it is a block of.
pub fn start(block: BlockValue) -> usize
    ensures { (result ≡ block_start block) × (result < 2 ^ 43) }
{
    times(block.num, size(block))
}
