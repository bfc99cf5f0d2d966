// The first fields of a message's line. A function that puts one into a lent buffer at an index answers the next index.
#![tactic(auto)]

ghost use Rattle.std.specs.Prelude.{◌≡◌, [], ◌∷◌, ◌++◌, ◌+◌, ◌≤◌, length};
ghost use Rattle.pieces.specs.Memory.{Put};
ghost use Rattle.head_text.specs.Head.{type_text, code_text, head_text};

// The type, between spaces. It is a number, as the packet has it and as it crosses to C.
#[tactic(auto, unfolding(crate::specs::Head::type_text))]
fn type_field(kind: u8) -> [u8; 5]
    ensures { result ≡ 32 ∷ type_text kind ++ (32 ∷ []) }
{
    match kind {
        0 => *b" CON ",
        1 => *b" NON ",
        2 => *b" ACK ",
        _ => *b" RST ",
    }
}

// The code, and a space.
#[tactic(auto, unfolding(crate::specs::Head::code_text))]
fn code_field(code: u8) -> [u8; 5]
    ensures { result ≡ code_text code ++ (32 ∷ []) }
{
    let detail = code % 32;
    [
        b'0' + code / 32,
        b'.',
        b'0' + detail / 10,
        b'0' + detail % 10,
        b' ',
    ]
}

// The line's number, and a message's type, code and ID.
pub fn put_head(out: &mut [u8], at: usize, number: u64, kind: u8, code: u8, id: u16) -> usize
    requires { at + 51 ≤ length out.old }
    ensures put { Put out.old at (head_text number kind code id) out.new result }
    ensures upper_bound { result ≤ at + 51 }
{
    let type_text = type_field(kind);
    let code_text = code_field(code);
    let k = script_text::put_decimal(out, at, number);
    let k = pieces::put(out, k, &type_text);
    let k = pieces::put(out, k, &code_text);
    let k = script_text::put_decimal(out, k, u64::from(id));
    pieces::put_byte(out, k, b' ')
}
