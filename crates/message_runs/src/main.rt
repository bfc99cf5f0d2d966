// Messages at the edges: written, and read again. What is printed is compared with stdout.
#![tactic(auto)]

ghost use Rattle.std.specs.Prelude.{◌≤◌, length};

use message_writer::NotWritten;

// More than any of these messages takes.
const ROOM: usize = 70000;

// The number, and a space. option_runs has the same: the crates that both use only put text, and print none.
fn print_number(n: usize) {
    let mut text = [b' '; 21];
    let at = script_text::put_decimal(&mut text, 0, n as u64);
    io::write_all(1, pieces::within(&text, 0, at + 1));
}

// The first bytes, as far as they fit on a line.
fn print_start(bytes: &[u8]) {
    if bytes.len() <= 32 {
        print_hex(bytes);
        return;
    }
    print_hex(&bytes[..32]);
}

fn print_hex(bytes: &[u8])
    requires { length bytes.now ≤ 32 }
{
    let mut text = [0u8; 64];
    let at = script_text::put_hex(&mut text, 0, bytes);
    io::write_all(1, pieces::within(&text, 0, at));
}

// What the reader makes of what was written: its bare length, and where the payload starts.
fn print_read(bytes: &[u8]) {
    match message::from_bytes(bytes) {
        Ok(packet) => {
            print_number(message::bare(packet));
            print_number(packet.payload.from);
        }
        Err(malformed) => {
            io::write_all(1, b"refused-");
            print_number(usize::from(u8::from(malformed)));
        }
    }
}

// The length, the bare length and the start of the payload, and the first bytes; of a refused message the number, and the output's first bytes.
fn show(writing: Result<usize, NotWritten>, out: &[u8]) {
    match writing {
        Ok(n) => {
            print_number(n);
            print_read(pieces::within(out, 0, n));
            print_start(pieces::within(out, 0, n));
        }
        Err(not_written) => {
            io::write_all(1, b"refused-");
            print_number(usize::from(u8::from(not_written)));
            print_start(pieces::within(out, 0, 4));
        }
    }
    io::write_all(1, b"\n");
}

// One message into an output of so many bytes, which are all zeros before. It makes the output itself, since to lend one from call to call is dear to prove.
fn write<'a>(
    room: usize,
    message_type: u8,
    code: u8,
    token: &'a [u8],
    numbers: &'a [u32],
    lengths: &'a [u32],
    values: &'a [u8],
    payload: &'a [u8],
)
    requires { room ≤ 70000 }
{
    let mut all = buffers::zeros::<ROOM>();
    let out = &mut all[..room];
    let writing = message_writer::to_bytes(
        out,
        message_type,
        code,
        23839,
        token,
        numbers,
        lengths,
        values,
        payload,
    );
    show(writing, out);
}

// The messages of coap-lite's own documentation.
fn request(room: usize)
    requires { room ≤ 70000 }
{
    print_number(room);
    write(
        room,
        0,
        1,
        b"\x00\x00\x39\x74",
        &[3, 11],
        &[9, 3],
        b"localhosttv1",
        b"",
    );
}

fn response(room: usize)
    requires { room ≤ 70000 }
{
    print_number(room);
    write(
        room,
        2,
        69,
        b"\x00\x00\x39\x74",
        &[],
        &[],
        b"",
        b"Hello World!",
    );
}

// To the last byte of room, and one byte short.
fn documented() {
    request(22);
    request(21);
    response(21);
    response(20);
}

// A message with no options, whose token and payload have so many bytes.
fn plain(message_type: u8, code: u8, token: usize, payload: usize) {
    let bytes = buffers::zeros::<65805>();
    print_number(usize::from(message_type));
    print_number(usize::from(code));
    print_number(token);
    print_number(payload);
    write(
        ROOM,
        message_type,
        code,
        pieces::within(&bytes, 0, token),
        &[],
        &[],
        b"",
        pieces::within(&bytes, 0, payload),
    );
}

fn heads() {
    plain(1, 1, 0, 0);
    plain(1, 1, 8, 1);
    plain(1, 1, 9, 1);
    plain(4, 1, 0, 0);
    plain(3, 255, 0, 0);
}

fn empty() {
    plain(3, 0, 0, 0);
    plain(3, 0, 1, 0);
    plain(3, 0, 0, 1);
}

// An option of a number, whose length is said to be len where there are so many bytes of values.
fn option(code: u8, number: u32, len: u32, values: usize) {
    let bytes = buffers::zeros::<65805>();
    print_number(number as usize);
    print_number(len as usize);
    print_number(values);
    write(
        ROOM,
        0,
        code,
        b"",
        &[number],
        &[len],
        pieces::within(&bytes, 0, values),
        b"",
    );
}

// Both sides of each range that a nibble and its extension reach.
fn edge(n: u32) {
    option(1, n, 0, 0);
    option(1, 1, n, n as usize);
}

fn ranges() {
    edge(0);
    edge(12);
    edge(13);
    edge(268);
    edge(269);
    edge(65535);
    edge(65536);
    edge(65804);
    edge(65805);
}

// Two options, each with a value of one byte.
fn two(first: u32, second: u32) {
    print_number(first as usize);
    print_number(second as usize);
    write(ROOM, 0, 1, b"", &[first, second], &[1, 1], b"ab", b"");
}

// Numbers that repeat and that fall; values that do not go with the lengths; an option in an empty message.
fn orders() {
    two(11, 11);
    two(11, 3);
    option(1, 3, 2, 3);
    option(1, 3, 2, 1);
    option(0, 1, 0, 0);
}

fn main() {
    documented();
    heads();
    empty();
    ranges();
    orders();
}
