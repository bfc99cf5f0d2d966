// The configuration, at the bottom, and the numbers that are a mode's.
#![tactic(auto)]

ghost use Rattle.std.specs.Prelude.{◌≡◌, ◌^◌, ◌<◌, ◌≤◌};
ghost use Rattle.config.specs.Mode.{byte_limit, num_limit, nums};

// BlockHandlerConfig in the Rust, with the mode and the sizes of the pieces.
#[repr(C)]
#[derive(Clone, Copy)]
pub struct Config {
    pub strict: bool,
    // T, max_total_message_size in the Rust.
    pub limit: usize,
    // Milliseconds, cache_expiry_duration in the Rust.
    pub lifetime: u64,
    // U and V, the lengths of a piece of the upload memory and of the response memory.
    pub upload: usize,
    pub response: usize,
}

// Default taken from RFC 7252.
const DEFAULT_MAX_TOTAL_MESSAGE_SIZE: usize = 1152;

// Two minutes, in milliseconds.
const DEFAULT_CACHE_EXPIRY_DURATION: u64 = 120000;

// The Rust's defaults, for pieces of these sizes.
pub fn default_config(strict: bool, upload: usize, response: usize) -> Config
    ensures { result ≡ record { strict = strict; limit = 1152; lifetime = 120000; upload = upload; response = response } }
{
    Config {
        strict,
        limit: DEFAULT_MAX_TOTAL_MESSAGE_SIZE,
        lifetime: DEFAULT_CACHE_EXPIRY_DURATION,
        upload,
        response,
    }
}

// The numbers that are a mode's: the most bytes of a Block option that is read, the largest num that is made, and how many nums an option can hold.
const PLAIN_BYTE_LIMIT: usize = 2;

const STRICT_BYTE_LIMIT: usize = 3;

const PLAIN_NUM_LIMIT: usize = 65535;

const STRICT_NUM_LIMIT: usize = 1048575;

const PLAIN_NUMS: u32 = 4096;

const STRICT_NUMS: u32 = 1048576;

pub fn byte_limit(strict: bool) -> usize
    ensures { (result ≡ byte_limit strict) × (result ≤ 3) }
{
    if strict {
        return STRICT_BYTE_LIMIT;
    }
    PLAIN_BYTE_LIMIT
}

pub fn num_limit(strict: bool) -> usize
    ensures { (result ≡ num_limit strict) × (result < 2 ^ 20) }
{
    if strict {
        return STRICT_NUM_LIMIT;
    }
    PLAIN_NUM_LIMIT
}

pub fn nums(strict: bool) -> u32
    ensures { (result ≡ nums strict) × (4096 ≤ result) × (result ≤ 2 ^ 20) }
{
    if strict {
        return STRICT_NUMS;
    }
    PLAIN_NUMS
}
