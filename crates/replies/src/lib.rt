// Answers in numbers, as they cross to C, and where the bytes stand that they show.
#![tactic(auto)]

use block_state::{Part, Recorded};

mod numbers;

pub use numbers::{body_in, chunk_in, found_in, reply_of, sent_in, served_head_in};

// An answer in numbers, as C reads it.
#[repr(C)]
#[derive(Clone, Copy)]
pub struct Reply {
    // 0 Refused, 1 Continue, 2 TooLarge, 3 Handed, 4 Pass, 5 Served, 6 Plain, 7 Whole, 8 First.
    pub kind: u8,
    // 1 to 10 for a refusal, else 0.
    pub refusal: u8,
    // The response code of an answer that has one, else 0.
    pub code: u8,
    // A block value, or none: all zeros.
    pub block1: Recorded,
    pub block2: Recorded,
    // The body of Handed, or the chunk of Served, Whole and First.
    pub part: Part,
    // The head of Served.
    pub head: Part,
}

// Where bytes stand that an answer shows: from..to of the message's payload, all of it (place 1), or of what a part of the answer is a part of (place 2):
// the upload memory for a body, the response memory for a served head or chunk, the payload for the chunk that a response sends. Place 0: no bytes, since
// the answer has none or names a part that is not there.
#[repr(C)]
#[derive(Clone, Copy)]
pub struct Found {
    pub place: u8,
    pub from: usize,
    pub to: usize,
}
