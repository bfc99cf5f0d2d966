// Answers as numbers, and what the numbers show.
ghost use Rattle.std.specs.Prelude.{◌≡◌};
ghost use Rattle.replies.specs.Reply.{reply_of};
ghost use Rattle.replies.specs.Found.{found, found_in, body_in, served_head_in, chunk_in, sent_in};

use crate::{Found, Reply};
use answer_sources::Source;
use block_state::{Answer, state};

// The answer in numbers.
pub fn reply_of(answer: Answer) -> Reply
    ensures { result ≡ reply_of answer }
{
    let s = apart::said(answer);
    let kind = s.kind;
    let block1 = s.block1;
    let block2 = s.block2;
    let part = s.part;
    let head = s.head;
    Reply {
        kind: apart::kind_number(kind),
        refusal: s.number,
        code: s.code,
        block1: state::recording_of(block1),
        block2: state::recording_of(block2),
        part,
        head,
    }
}

pub fn body_in(reply: Reply) -> Source
    ensures { result ≡ body_in reply }
{
    let part = reply.part;
    answer_sources::body_source(reply.kind, part)
}

pub fn chunk_in(reply: Reply) -> Source
    ensures { result ≡ chunk_in reply }
{
    let part = reply.part;
    answer_sources::served_source(reply.kind, part)
}

pub fn served_head_in(reply: Reply) -> Source
    ensures { result ≡ served_head_in reply }
{
    let head = reply.head;
    answer_sources::served_source(reply.kind, head)
}

pub fn sent_in(reply: Reply) -> Source
    ensures { result ≡ sent_in reply }
{
    let part = reply.part;
    answer_sources::sent_source(reply.kind, part)
}

fn found(place: u8, from: usize, to: usize) -> Found
    ensures { result ≡ found place from to }
{
    Found { place, from, to }
}

// Where the bytes of a source stand, in a payload and a memory of these lengths.
pub fn found_in(source: Source, message: usize, memory: usize) -> Found
    ensures { result ≡ found_in source message memory }
{
    match source {
        Source::Nothing => found(0, 0, 0),
        Source::Message => found(1, 0, message),
        Source::Within(part) => {
            if (part.from <= part.to) & (part.to <= memory) {
                return found(2, part.from, part.to);
            }
            found(0, 0, 0)
        }
    }
}
