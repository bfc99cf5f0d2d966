// The bytes that an answer shows, lent and never copied: empty where the answer has none, or names a part that isn't there. `response_code` is passed on.
#![tactic(auto)]

ghost use Rattle.std.specs.Prelude.{◌≡◌};
ghost use Rattle.answer_sources.specs.Parts.{bytes_of, body_of, served_head, served_chunk, sent_bytes};

use answer_sources::Source;
pub use answer_sources::response_code;
use block_state::Answer;

fn bytes_of<'a>(source: Source, message: &'a [u8], memory: &'a [u8]) -> &'a [u8]
    ensures { result.now ≡ bytes_of source message.now memory.now }
{
    match source {
        Source::Nothing => &[],
        Source::Message => message,
        Source::Within(part) => pieces::within(memory, part.from, part.to),
    }
}

// The body that the application sees, of the message's own payload or of the upload memory as the call left it.
pub fn body<'a>(answer: Answer, payload: &'a [u8], upload: &'a [u8]) -> &'a [u8]
    ensures { result.now ≡ body_of answer payload.now upload.now }
{
    let s = apart::said(answer);
    let kind = s.kind;
    let part = s.part;
    bytes_of(
        answer_sources::body_source(apart::kind_number(kind), part),
        payload,
        upload,
    )
}

// The head of the cached response that a Served answer goes out under, of the response memory.
pub fn served_head(answer: Answer, response: &[u8]) -> &[u8]
    ensures { result.now ≡ served_head answer response.now }
{
    let s = apart::said(answer);
    let kind = s.kind;
    let head = s.head;
    bytes_of(
        answer_sources::served_source(apart::kind_number(kind), head),
        response,
        response,
    )
}

// The chunk of a Served answer, of the response memory.
pub fn served_chunk(answer: Answer, response: &[u8]) -> &[u8]
    ensures { result.now ≡ served_chunk answer response.now }
{
    let s = apart::said(answer);
    let kind = s.kind;
    let part = s.part;
    bytes_of(
        answer_sources::served_source(apart::kind_number(kind), part),
        response,
        response,
    )
}

// What a response sends of its own payload: all of it after Plain, the chunk after First and Whole.
pub fn sent_bytes(answer: Answer, payload: &[u8]) -> &[u8]
    ensures { result.now ≡ sent_bytes answer payload.now }
{
    let s = apart::said(answer);
    let kind = s.kind;
    let part = s.part;
    bytes_of(
        answer_sources::sent_source(apart::kind_number(kind), part),
        payload,
        payload,
    )
}
