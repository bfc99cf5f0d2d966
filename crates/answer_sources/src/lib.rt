// Where the bytes that an answer shows stand, and its response code.
#![tactic(auto)]

ghost use Rattle.std.specs.Prelude.{◌≡◌};
ghost use Rattle.apart.specs.Answers.{said};

use block_state::{Answer, Part};

mod sources;

pub use sources::{body_source, sent_source, served_source};

// Where bytes that an answer shows stand: the whole of the message's payload, or within the memory or payload that they are a part of.
#[derive(Clone, Copy)]
pub enum Source {
    Nothing,
    Message,
    Within(Part),
}

// The response code that belongs to an answer; 0 where the response that goes out has its own.
pub fn response_code(answer: Answer) -> u8
    ensures { result ≡ (said answer).code }
{
    let s = apart::said(answer);
    s.code
}
