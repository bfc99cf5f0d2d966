// A message that brings a price list: its path and its payload, shown where they stand.
#![tactic(auto)]

fn main() {
    let datagram = b"\x40\x03\x00\x01\xb6prices\xd1\x03\x00\xffmilk 1.19\n"; // CON 0.03, Uri-Path, Block1
    let Ok(packet) = message::from_bytes(datagram) else {
        return; // refusal 11
    };
    let Some(path) = message::nth_option(datagram, packet.options.from, 11, 0) else {
        return;
    };
    let payload = packet.payload;
    io::write_all(1, message::part_of(datagram, path));
    io::write_all(1, b": ");
    io::write_all(1, message::part_of(datagram, payload));
}
