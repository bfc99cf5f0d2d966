// An answer taken apart, here alone.
#![tactic(auto)]

ghost use Rattle.std.specs.Prelude.{◌≡◌};
ghost use Rattle.apart.specs.Answers.{kind_number, nowhere, of_its_own, refusal_code, said, saying};

use block_state::{Answer, Kind, Part, Said, Served};
use block_value::BlockValue;
use refusal::Refusal;

pub fn kind_number(kind: Kind) -> u8
    ensures { result ≡ kind_number kind }
{
    match kind {
        Kind::Refused => 0,
        Kind::Continue => 1,
        Kind::TooLarge => 2,
        Kind::Handed => 3,
        Kind::Pass => 4,
        Kind::Served => 5,
        Kind::Plain => 6,
        Kind::Whole => 7,
        Kind::First => 8,
    }
}

// A code of class and detail, as CoAP writes it in one byte.
const CONTINUE: u8 = 95;

const BAD_REQUEST: u8 = 128;

const INCOMPLETE: u8 = 136;

const TOO_LARGE: u8 = 141;

const INTERNAL_ERROR: u8 = 160;

fn refusal_code(why: Refusal) -> u8
    ensures { result ≡ refusal_code why }
{
    match why {
        Refusal::NotNext => INCOMPLETE,
        Refusal::BadForm | Refusal::PastTheEnd => BAD_REQUEST,
        _ => INTERNAL_ERROR,
    }
}

const NOWHERE: Part = Part { from: 0, to: 0 };

// An answer to a request.
fn asked(kind: Kind, block1: Option<BlockValue>, code: u8, part: Part) -> Said
    ensures { result ≡ saying kind 0 block1 None code part nowhere }
{
    Said {
        kind,
        number: 0,
        block1,
        block2: None,
        code,
        part,
        head: NOWHERE,
    }
}

// An answer to a response.
fn sent(kind: Kind, block2: Option<BlockValue>, part: Part) -> Said
    ensures { result ≡ saying kind 0 None block2 of_its_own part nowhere }
{
    Said {
        kind,
        number: 0,
        block1: None,
        block2,
        code: 0,
        part,
        head: NOWHERE,
    }
}

fn served(s: Served) -> Said
    ensures { result ≡ said (Answer.Served s) }
{
    let block1 = s.block1;
    let block2 = s.block2;
    let part = s.chunk;
    let head = s.head;
    Said {
        kind: Kind::Served,
        number: 0,
        block1,
        block2: Some(block2),
        code: 0,
        part,
        head,
    }
}

fn refused(why: Refusal) -> Said
    ensures { result ≡ said (Answer.Refused why) }
{
    Said {
        kind: Kind::Refused,
        number: why.number(),
        block1: None,
        block2: None,
        code: refusal_code(why),
        part: NOWHERE,
        head: NOWHERE,
    }
}

pub fn said(answer: Answer) -> Said
    ensures { result ≡ said answer }
{
    match answer {
        Answer::Continue(b) => asked(Kind::Continue, Some(b), CONTINUE, NOWHERE),
        Answer::TooLarge(b) => asked(Kind::TooLarge, Some(b), TOO_LARGE, NOWHERE),
        Answer::Handed(b, body) => asked(Kind::Handed, Some(b), 0, body),
        Answer::Pass => asked(Kind::Pass, None, 0, NOWHERE),
        Answer::Served(s) => served(s),
        Answer::Plain => sent(Kind::Plain, None, NOWHERE),
        Answer::Whole(b, chunk) => sent(Kind::Whole, Some(b), chunk),
        Answer::First(b, chunk) => sent(Kind::First, Some(b), chunk),
        Answer::Refused(why) => refused(why),
    }
}
