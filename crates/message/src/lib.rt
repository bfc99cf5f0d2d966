// CoAP messages (RFC 7252), read where they stand: parts of the message, never copies. `from_bytes` judges the whole message before it shows any
// part. The other functions are for a message that it took, and say the same of any bytes.
#![tactic(auto)]

ghost use Rattle.std.specs.Prelude.{◌≡◌, ◌≤◌, length, get_or};
ghost use Rattle.pieces.specs.Memory.{within};
ghost use Rattle.message_format.specs.Format.{head_ok};
ghost use Rattle.message.specs.Reader.{packet_with, read_of};

pub use message_format::{Malformed, OptionPlace};
pub use one_option::next_option;
pub use option_reader::{Part, nth_option};

// A message, by what its head says and where its parts stand in it.
#[derive(Clone, Copy)]
pub struct Packet {
    // 0 CON, 1 NON, 2 ACK, 3 RST: a number, as it crosses to C.
    pub message_type: u8,
    // The class times 32, and the detail.
    pub code: u8,
    pub message_id: u16,
    pub token: Part,
    // All options, without the payload marker.
    pub options: Part,
    pub payload: Part,
}

// Judges the first byte and the code, before n more bytes.
#[tactic(auto, unfolding(message_format::specs::Format::head_ok))]
fn head_ok(first: u8, code: u8, n: usize) -> bool
    ensures { result ≡ head_ok first code n }
{
    let token = first % 16;
    first / 64 == 1 && token <= 8 && usize::from(token) <= n && (code != 0 || n == 0)
}

// The parts of a message that was judged, by how many bytes are left where its options end.
fn packet_with(message: &[u8], left: usize) -> Packet
    requires { (4 ≤ length message.now) × (left ≤ length message.now) }
    ensures { result ≡ packet_with message.now (get_or message.now 0 0) left }
{
    let n = message.len();
    let options = 4 + usize::from(message[0] % 16);
    Packet {
        message_type: message[0] / 16 % 4,
        code: message[1],
        message_id: u16::from_be_bytes([message[2], message[3]]),
        token: Part {
            from: 4,
            to: options,
        },
        options: Part {
            from: options,
            to: n - left,
        },
        payload: Part {
            from: n - left.saturating_sub(1),
            to: n,
        },
    }
}

// Reads a whole message: Packet::from_bytes in the Rust.
pub fn from_bytes(message: &[u8]) -> Result<Packet, Malformed>
    ensures { result ≡ read_of message.now }
{
    let [first, code, _, _, rest @ ..] = message else {
        return Err(Malformed);
    };
    if !head_ok(*first, *code, rest.len()) {
        return Err(Malformed);
    }
    let left = option_reader::options_end(message, 4 + usize::from(first % 16))?;
    Ok(packet_with(message, left))
}

// The length of the message encoded with its payload taken out: the marker goes too.
pub fn bare(packet: Packet) -> usize
    ensures { result ≡ packet.options.to }
{
    packet.options.to
}

// A part of the message, lent and never copied: empty where it isn't there.
pub fn part_of(message: &[u8], part: Part) -> &[u8]
    ensures { result.now ≡ within message.now part.from part.to }
{
    pieces::within(message, part.from, part.to)
}
