// The bytes of a Block1 or Block2 option: read, write. Both take the mode, which says how many bytes an option may have.
#![tactic(auto)]

ghost use Rattle.std.specs.Prelude.{◌≡◌, ◌%◌, ◌^◌, ◌<◌, ◌≤◌, length};
ghost use Rattle.config.specs.Mode.{nums};
ghost use Rattle.block_option.specs.Uint.{uint};
ghost use Rattle.block_option.specs.Option.{unpacked, read_of, packed, written, in_three};

use block_value::BlockValue;

// An option's bytes: the first len of them; the others are 0.
#[repr(C)]
#[derive(Clone, Copy)]
pub struct Written {
    pub len: usize,
    pub bytes: [u8; 3],
}

fn unpack(scalar: u32) -> BlockValue
    ensures { result ≡ unpacked scalar }
{
    BlockValue {
        num: scalar / 16,
        more: scalar / 8 % 2 == 1,
        size_exponent: (scalar % 8) as u8,
    }
}

// The number that the bytes spell, the most significant first.
fn scalar_of(option: &[u8]) -> u32
    requires { length option.now ≤ 3 }
    ensures { result ≡ uint option.now }
{
    let mut scalar: u32 = 0;
    for byte in option {
        scalar = scalar * 256 + u32::from(*byte);
    }
    scalar
}

// None where the option cannot be read.
pub fn read(strict: bool, option: &[u8]) -> Option<BlockValue>
    ensures { result ≡ read_of strict option.now }
{
    if config::byte_limit(strict) < option.len() {
        return None;
    }
    Some(unpack(scalar_of(option)))
}

// The num as far as an option of the mode can hold it.
fn kept_num(strict: bool, num: u32) -> u32
    ensures { (result ≡ num % nums strict) × (result < 2 ^ 20) }
{
    num % config::nums(strict)
}

fn pack(strict: bool, block: BlockValue) -> u32
    ensures { (result ≡ packed strict block) × (result < 2 ^ 24) }
{
    let num = kept_num(strict, block.num);
    let exponent = u32::from(block.size_exponent % 8);
    if block.more {
        return num * 16 + 8 + exponent;
    }
    num * 16 + exponent
}

pub fn write(strict: bool, block: BlockValue) -> Written
    ensures { result ≡ in_three (written strict block) }
{
    let scalar = pack(strict, block);
    if scalar == 0 {
        return Written {
            len: 0,
            bytes: [0, 0, 0],
        };
    }
    if scalar < 256 {
        return Written {
            len: 1,
            bytes: [scalar as u8, 0, 0],
        };
    }
    if scalar < 65536 {
        return Written {
            len: 2,
            bytes: [(scalar / 256) as u8, (scalar % 256) as u8, 0],
        };
    }
    Written {
        len: 3,
        bytes: [
            (scalar / 65536) as u8,
            (scalar / 256 % 256) as u8,
            (scalar % 256) as u8,
        ],
    }
}
