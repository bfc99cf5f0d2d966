// Where the bytes stand that an answer shows, by its number and the part that it names: a number, since a reply that C hands back may hold any.
ghost use Rattle.std.specs.Prelude.{◌≡◌};
ghost use Rattle.answer_sources.specs.Parts.{source_if, body_source, served_source, sent_source};

use crate::Source;
use block_state::Part;

fn source(shown: bool, part: Part) -> Source
    ensures { result ≡ source_if shown part }
{
    if shown {
        return Source::Within(part);
    }
    Source::Nothing
}

// What an answer of this number and part shows as its body: the message's payload for Pass (4), the part for Handed (3).
pub fn body_source(kind: u8, part: Part) -> Source
    ensures { result ≡ body_source kind part }
{
    if kind == 4 {
        return Source::Message;
    }
    source(kind == 3, part)
}

// The part, or the head, of Served (5).
pub fn served_source(kind: u8, part: Part) -> Source
    ensures { result ≡ served_source kind part }
{
    source(kind == 5, part)
}

// What a response sends of its own payload: all of it for Plain (6), the part for Whole (7) and First (8).
pub fn sent_source(kind: u8, part: Part) -> Source
    ensures { result ≡ sent_source kind part }
{
    if kind == 6 {
        return Source::Message;
    }
    source((kind == 7) | (kind == 8), part)
}
