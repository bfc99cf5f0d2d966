// Why a call is refused, and the number that each reason goes out under.
#![tactic(auto)]

ghost use Rattle.std.specs.Prelude.{◌≡◌};
ghost use Rattle.refusal.specs.Numbers.{refusal_number};

// In the order of their numbers, from 1 on.
#[derive(Clone, Copy, Debug, PartialEq, Eq)]
pub enum Refusal {
    // A number, a length or a memory is off the limits.
    OffLimits,
    // The time is before the last one recorded.
    ClockBack,
    // The key is not live, and sixteen others are.
    TableFull,
    // The message leaves no room for a payload at any block size.
    TooLargeToEncode,
    // No block value can be made.
    NoBlockValue,
    // The block would extend the assembly by more than 16,384 bytes.
    Jump,
    // The key's piece of memory is too small.
    NoRoom,
    // The chunk that is asked for begins past the end.
    PastTheEnd,
    // Strict mode: not the next block of the upload.
    NotNext,
    // Strict mode: the block's form is bad.
    BadForm,
}

impl Refusal {
    pub fn number(self) -> u8
        ensures { result ≡ refusal_number self }
    {
        match self {
            Refusal::OffLimits => 1,
            Refusal::ClockBack => 2,
            Refusal::TableFull => 3,
            Refusal::TooLargeToEncode => 4,
            Refusal::NoBlockValue => 5,
            Refusal::Jump => 6,
            Refusal::NoRoom => 7,
            Refusal::PastTheEnd => 8,
            Refusal::NotNext => 9,
            Refusal::BadForm => 10,
        }
    }
}
