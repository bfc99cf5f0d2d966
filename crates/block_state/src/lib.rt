// One key's state by value, and what a call's step on it answers.
#![tactic(auto)]

use block_value::BlockValue;
use refusal::Refusal;

pub mod state;

// What is assembled of an upload, cached_request_payload in the Rust: its length, and the exponent of the last block taken.
#[repr(C)]
#[derive(Clone, Copy, PartialEq, Eq, Default)]
pub struct Assembled {
    pub len: u32,
    pub exponent: u8,
}

// The cached response, cached_response in the Rust: its head and payload stand at the start of the response piece. A flag says whether there is one, since C shares the layout.
#[repr(C)]
#[derive(Clone, Copy, PartialEq, Eq, Default)]
pub struct Cached {
    pub held: bool,
    pub head: u8,
    pub payload: u32,
}

// The recorded Block2 value, last_request_block2 in the Rust. A flag says whether there is one, since C shares the layout.
#[repr(C)]
#[derive(Clone, Copy, PartialEq, Eq, Default)]
pub struct Recorded {
    pub given: bool,
    pub more: bool,
    pub exponent: u8,
    pub num: u32,
}

#[repr(C)]
#[derive(Clone, Copy, PartialEq, Eq, Default)]
pub struct BlockState {
    pub assembled: Assembled,
    pub cached: Cached,
    pub recorded: Recorded,
}

// The bytes from..to: of the upload memory after Handed, of the response memory after Served, of the response's own payload after Whole and First.
#[repr(C)]
#[derive(Clone, Copy)]
pub struct Part {
    pub from: usize,
    pub to: usize,
}

// A request's numbers: when it came, its length without the payload, and whether it has a Block1 and a Block2 option, whose bytes C lends beside them.
#[repr(C)]
#[derive(Clone, Copy)]
pub struct RequestNumbers {
    pub time: u64,
    pub bare: usize,
    pub given1: bool,
    pub given2: bool,
}

// A response's numbers: when it came, its length without the payload, and whether it has a Block2 option of its own.
#[repr(C)]
#[derive(Clone, Copy)]
pub struct ResponseNumbers {
    pub time: u64,
    pub bare: usize,
    pub own: bool,
}

// What is served from the cache: a Block1 value if the call completed a body, the Block2 value, and the head and the chunk, parts of the response memory.
#[derive(Clone, Copy)]
pub struct Served {
    pub block1: Option<BlockValue>,
    pub block2: BlockValue,
    pub head: Part,
    pub chunk: Part,
}

#[derive(Clone, Copy)]
pub enum Answer {
    // 2.31, with the Block1 value.
    Continue(BlockValue),
    // 4.13, with the Block1 value.
    TooLarge(BlockValue),
    // To the application: the Block1 value for its response, and the body, a part of the upload memory.
    Handed(BlockValue, Part),
    // To the application, with the message's own payload.
    Pass,
    // From the cache.
    Served(Served),
    // The response goes out as it is.
    Plain,
    // The response goes out with this Block2 value and this part of its own payload; it is not cached, and an older cache stays.
    Whole(BlockValue, Part),
    // The same, and the response is cached.
    First(BlockValue, Part),
    Refused(Refusal),
}

// The nine answers by name.
#[derive(Clone, Copy, Debug, PartialEq, Eq)]
pub enum Kind {
    Continue,
    TooLarge,
    Handed,
    Pass,
    Served,
    Plain,
    Whole,
    First,
    Refused,
}

// What an answer says: its name, a refusal's number (else 0), the two block values to send, the response code (0 where the response that goes out has its own),
// the body of Handed or the chunk of Served, Whole and First, and the head of Served; a part from 0 to 0 elsewhere.
#[derive(Clone, Copy)]
pub struct Said {
    pub kind: Kind,
    pub number: u8,
    pub block1: Option<BlockValue>,
    pub block2: Option<BlockValue>,
    pub code: u8,
    pub part: Part,
    pub head: Part,
}

// A state with what was answered.
#[derive(Clone, Copy)]
pub struct Stepped {
    pub state: BlockState,
    pub answer: Answer,
}
