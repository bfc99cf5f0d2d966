// The reader, the writer and the table of options for programs in C and Rust: on bytes that the caller owns, with answers as numbers.
#![tactic(auto)]

ghost use Rattle.std.specs.Prelude.{◌≡◌};
ghost use Rattle.one_option.specs.Index.{next_at};
ghost use Rattle.option_reader.specs.Reader.{found_from};
ghost use Rattle.message.specs.Reader.{read_of};
ghost use Rattle.message_measure.specs.Given.{given};
ghost use Rattle.option_table.specs.Options.{allowed_of};
ghost use Rattle.message_c.specs.Numbers.{option, no_option, malformed_option, packet_read, refused_read, message_read, option_next, option_found, WritesNumbers, length_number};

use message::{Packet, Part};
use option_table::Length;

// A message that was read: where its parts stand in it. Refused, all else is 0.
#[repr(C)]
#[derive(Clone, Copy)]
pub struct ReadMessage {
    // 11 for a refusal, else 0.
    pub refusal: u8,
    // 0 CON, 1 NON, 2 ACK, 3 RST.
    pub message_type: u8,
    // The class times 32, and the detail.
    pub code: u8,
    pub message_id: u16,
    // The length of the message with its payload taken out.
    pub bare: usize,
    pub token: Part,
    // All options, without the payload marker.
    pub options: Part,
    pub payload: Part,
}

// What stands where an option may begin. All is 0 but the kind where it is none.
#[repr(C)]
#[derive(Clone, Copy)]
pub struct OptionAt {
    // 0 none, 1 an option, 2 malformed: a number, as C sees it.
    pub kind: u8,
    pub number: u16,
    pub value: Part,
}

// What was written: so many bytes, at the start of the output. Refused, none.
#[repr(C)]
#[derive(Clone, Copy)]
pub struct WrittenMessage {
    // 21 for a refusal, else 0.
    pub refusal: u8,
    pub len: usize,
}

fn read(packet: Packet) -> ReadMessage
    ensures { result ≡ packet_read packet }
{
    let token = packet.token;
    let options = packet.options;
    let payload = packet.payload;
    ReadMessage {
        refusal: 0,
        message_type: packet.message_type,
        code: packet.code,
        message_id: packet.message_id,
        bare: message::bare(packet),
        token,
        options,
        payload,
    }
}

fn refused(refusal: u8) -> ReadMessage
    ensures { result ≡ refused_read refusal }
{
    let nowhere = Part { from: 0, to: 0 };
    ReadMessage {
        refusal,
        message_type: 0,
        code: 0,
        message_id: 0,
        bare: 0,
        token: nowhere,
        options: nowhere,
        payload: nowhere,
    }
}

// Reads a whole message: Packet::from_bytes in the Rust.
#[unsafe(no_mangle)]
pub extern "C" fn block_handler_message_read(message: &[u8]) -> ReadMessage
    ensures { result ≡ message_read (read_of message.now) }
{
    match message::from_bytes(message) {
        Ok(packet) => read(packet),
        Err(malformed) => refused(u8::from(malformed)),
    }
}

fn option_at(number: u16, from: usize, to: usize) -> OptionAt
    ensures { result ≡ option number from to }
{
    OptionAt {
        kind: 1,
        number,
        value: Part { from, to },
    }
}

fn no_option() -> OptionAt
    ensures { result ≡ no_option }
{
    OptionAt {
        kind: 0,
        number: 0,
        value: Part { from: 0, to: 0 },
    }
}

fn malformed_option() -> OptionAt
    ensures { result ≡ malformed_option }
{
    OptionAt {
        kind: 2,
        number: 0,
        value: Part { from: 0, to: 0 },
    }
}

// The option that begins at an index, after one of the number `before`. A message's first begins where its options do, after 0; the
// next one where the value before it ends.
#[unsafe(no_mangle)]
pub extern "C" fn block_handler_next_option(message: &[u8], at: usize, before: u16) -> OptionAt
    ensures { result ≡ option_next (next_at message.now at before) }
{
    match message::next_option(message, at, before) {
        Ok(Some(option)) => option_at(option.number, option.from, option.to),
        Ok(None) => no_option(),
        Err(_) => malformed_option(),
    }
}

// The n-th option of a number, the first being 0, of a message that was read and whose options begin there.
#[unsafe(no_mangle)]
pub extern "C" fn block_handler_nth_option(
    message: &[u8],
    options: usize,
    number: u16,
    n: usize,
) -> OptionAt
    ensures { result ≡ option_found number (found_from message.now options 0 number n) }
{
    match message::nth_option(message, options, number, n) {
        Some(value) => option_at(number, value.from, value.to),
        None => no_option(),
    }
}

// Writes a whole message: Packet::to_bytes in the Rust. The options are given by their numbers, the lengths of their values, and the values
// one after another.
#[unsafe(no_mangle)]
pub extern "C" fn block_handler_message_write<'a>(
    out: &mut [u8],
    message_type: u8,
    code: u8,
    message_id: u16,
    token: &'a [u8],
    numbers: &'a [u32],
    lengths: &'a [u32],
    values: &'a [u8],
    payload: &'a [u8],
) -> WrittenMessage
    ensures { WritesNumbers out.old (given message_type code message_id token.now
        numbers.now lengths.now values.now payload.now) out.new result }
{
    match message_writer::to_bytes(
        out,
        message_type,
        code,
        message_id,
        token,
        numbers,
        lengths,
        values,
        payload,
    ) {
        Ok(len) => WrittenMessage { refusal: 0, len },
        Err(not_written) => WrittenMessage {
            refusal: u8::from(not_written),
            len: 0,
        },
    }
}

// Whether the value of an option may have len bytes: 0 if the table has no such option, 1 if it may, 2 if not.
#[unsafe(no_mangle)]
pub extern "C" fn block_handler_option_length(number: u16, len: usize) -> u8
    ensures { result ≡ length_number (allowed_of number len) }
{
    match option_table::length_allowed(number, len) {
        Length::Unknown => 0,
        Length::Allowed => 1,
        Length::NotAllowed => 2,
    }
}
