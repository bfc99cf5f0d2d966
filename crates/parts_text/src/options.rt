// The options of a message, as text.
ghost use Rattle.std.specs.Prelude.{◌≡◌, List, ℕ, ◌+◌, ◌-◌, ◌*◌, ◌≤◌, length, drop};
ghost use Rattle.pieces.specs.Memory.{Put};
ghost use Rattle.message_format.specs.Format.{options_of, CoapOption, options};
ghost use Rattle.parts_text.specs.Parts.{option_text, more_text, options_text};

// A number has five digits at most, though the room for any is asked.
fn put_option(out: &mut [u8], at: usize, number: u16, value: &[u8]) -> usize
    requires { at + 2 * length value.now + 22 ≤ length out.old }
    ensures put { Put out.old at (option_text number value.now) out.new result }
    ensures upper_bound { result ≤ at + 2 * length value.now + 7 }
{
    let k = script_text::put_decimal(out, at, u64::from(number));
    let k = pieces::put_byte(out, k, b':');
    script_text::put_shown(out, k, value)
}

// The options from an index on, after one of the number `before`, each behind a comma. Eight bytes for each byte of an option are enough.
fn put_more(out: &mut [u8], start: usize, message: &[u8], first: usize, before: u16) -> usize
    requires first_in_bounds { first ≤ length message.now }
    requires first_in_bounds_2 { start + 8 * (length message.now - first) + 20 ≤ length out.old }
    ensures { (list : List CoapOption) (left : List ℕ) → options_of before (drop first message.now) ≡ options list left
        → Put out.old start (more_text list) out.new result × (result + 8 * length left ≤ start + 8 * (length message.now - first)) }
{
    let mut k = start;
    let mut at = first;
    let mut last = before;
    while let Ok(Some(option)) = message::next_option(message, at, last) {
        let comma = pieces::put_byte(out, k, b',');
        k = put_option(out, comma, option.number, &message[option.from..option.to]);
        at = option.to;
        last = option.number;
    }
    k
}

// All options of a message, from the index where they begin.
pub fn put_options(out: &mut [u8], start: usize, message: &[u8], first: usize) -> usize
    requires first_in_bounds { first ≤ length message.now }
    requires first_in_bounds_2 { start + 8 * (length message.now - first) + 21 ≤ length out.old }
    ensures { (list : List CoapOption) (left : List ℕ) → options_of 0 (drop first message.now) ≡ options list left
        → Put out.old start (options_text list) out.new result × (result + 8 * length left ≤ start + 8 * (length message.now - first) + 1) }
{
    match message::next_option(message, first, 0) {
        Ok(Some(option)) => {
            let k = put_option(out, start, option.number, &message[option.from..option.to]);
            put_more(out, k, message, option.to, option.number)
        }
        Ok(None) => pieces::put_byte(out, start, b'-'),
        Err(_) => start,
    }
}
