// RFC 7252's message on lists of bytes (specs/), with the types that the definitions and the readers share.
#![tactic(auto)]

ghost use Rattle.std.specs.Prelude.{◌≡◌};
ghost use Rattle.message_format.specs.Format.{malformed_number};

// An option's number and where its value stands: from `from` on, up to `to` and without it. Places count from where the bytes begin that were
// handed over.
#[derive(Clone, Copy, Debug, PartialEq, Eq)]
pub struct OptionPlace {
    pub number: u16,
    pub from: usize,
    pub to: usize,
}

// The bytes are no message, or one with an option number above 65,535.
#[derive(Clone, Copy, Debug, PartialEq, Eq)]
pub struct Malformed;

// Its number among the refusals.
impl From<Malformed> for u8 {
    ghost from_gives = { λ why number. number ≡ malformed_number why };

    fn from(_malformed: Malformed) -> u8 {
        11
    }
}
