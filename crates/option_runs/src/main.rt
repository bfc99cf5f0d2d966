// Options at the edges: cut, found by number, asked of the table of lengths, and a great many. What is printed is compared with stdout.
#![tactic(auto)]

use option_table::Length;

// The number, and a space.
fn print_number(n: usize) {
    let mut text = [b' '; 21];
    let at = script_text::put_decimal(&mut text, 0, n as u64);
    io::write_all(1, pieces::within(&text, 0, at + 1));
}

// A value in hex; nothing where it has more than 32 bytes.
fn print_value(value: &[u8]) {
    if 32 < value.len() {
        return;
    }
    let mut text = [0u8; 64];
    let at = script_text::put_hex(&mut text, 0, value);
    io::write_all(1, pieces::within(&text, 0, at));
}

// An option cut by a byte.
fn cut() {
    let Err(malformed) = message::from_bytes(b"\x40\x01\x5d\x1f\xb1") else {
        return;
    };
    io::write_all(1, b"cut refused-");
    print_number(usize::from(u8::from(malformed)));
    io::write_all(1, b"\n");
}

// The n-th option of a number.
fn find(message: &[u8], number: u16, n: usize) {
    print_number(usize::from(number));
    print_number(n);
    match message::nth_option(message, 4, number, n) {
        Some(value) => print_value(message::part_of(message, value)),
        None => {
            io::write_all(1, b"absent");
        }
    }
    io::write_all(1, b"\n");
}

// Two options of the number 11, and none of another.
fn finds() {
    let message = b"\x40\x01\x5d\x1f\xb1a\x02bb";
    find(message, 11, 0);
    find(message, 11, 1);
    find(message, 11, 2);
    find(message, 3, 0);
}

// Whether the table has a number, and lets its value have so many bytes.
fn length(number: u16, len: usize) {
    print_number(usize::from(number));
    print_number(len);
    match option_table::length_allowed(number, len) {
        Length::Unknown => {
            io::write_all(1, b"unknown\n");
        }
        Length::Allowed => {
            io::write_all(1, b"allowed\n");
        }
        Length::NotAllowed => {
            io::write_all(1, b"not allowed\n");
        }
    }
}

fn lengths() {
    length(3, 0);
    length(3, 1);
    length(35, 1034);
    length(35, 1035);
    length(2, 0);
    length(65535, 0);
}

// A million bytes, all but four of them options of one byte each: far more than the stack could hold calls for. Its bare length, and where the payload starts.
fn many_options() {
    let mut message = buffers::zeros::<1000000>();
    message[0] = 64;
    message[1] = 1;
    let Ok(packet) = message::from_bytes(&message) else {
        return;
    };
    io::write_all(1, b"999996 options ");
    print_number(message::bare(packet));
    print_number(packet.payload.from);
    io::write_all(1, b"\n");
}

fn main() {
    cut();
    finds();
    lengths();
    many_options();
}
