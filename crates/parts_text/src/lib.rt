// The parts of a message that was read, as text: found where they stand in it and never copied.
#![tactic(auto)]

mod options;

ghost use Rattle.std.specs.Prelude.{◌≡◌, Ok, [], ◌∷◌, ◌++◌, ◌+◌, ◌*◌, ◌≤◌, length};
ghost use Rattle.pieces.specs.Memory.{Put};
ghost use Rattle.message_format.specs.Format.{Message, means, meaning_of};
ghost use Rattle.message.specs.Reader.{read_of};
ghost use Rattle.script_text.specs.Text.{shown};
ghost use Rattle.parts_text.specs.Parts.{parts_text};

use message::Packet;

// Bytes as they are shown, and a byte behind them.
fn put_closed(out: &mut [u8], at: usize, bytes: &[u8], end: u8) -> usize
    requires { at + 2 * length bytes.now + 2 ≤ length out.old }
    ensures put { Put out.old at (shown bytes.now ++ (end ∷ [])) out.new result }
    ensures upper_bound { result ≤ at + 2 * length bytes.now + 2 }
{
    let k = script_text::put_shown(out, at, bytes);
    pieces::put_byte(out, k, end)
}

// The token, the options and the payload, and the line's end.
pub fn put_parts(out: &mut [u8], at: usize, message: &[u8], packet: Packet) -> usize
    requires message_value { read_of message.now ≡ Ok packet }
    requires message_in_bounds { at + 8 * length message.now ≤ length out.old }
    ensures put { (m : Message) → meaning_of message.now ≡ means m → Put out.old at (parts_text m) out.new result }
    ensures upper_bound { result ≤ at + 8 * length message.now }
{
    let token = packet.token;
    let options = packet.options;
    let first = options.from;
    let payload = packet.payload;
    let k = put_closed(out, at, message::part_of(message, token), b' ');
    let k = options::put_options(out, k, message, first);
    let k = pieces::put_byte(out, k, b' ');
    put_closed(out, k, message::part_of(message, payload), b'\n')
}
