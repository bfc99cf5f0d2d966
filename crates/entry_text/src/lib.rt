// One entry in use as the line of the state has it: INDEX,KEY,TOUCHED,ASSEMBLED,KEPT,CACHE,RECORDED.
#![tactic(auto)]

ghost use Rattle.std.specs.Prelude.{◌+◌, ◌≤◌, length, take};
ghost use Rattle.pieces.specs.Memory.{Put};
ghost use Rattle.script_text.specs.Text.{hex};
ghost use Rattle.entry_text.specs.Entry.{pair_text, cached_text, who_text, what_text, entry_text};

use block_state::{BlockState, Cached, state};
use entries::Entry;
use keys::Key;

fn put_key(out: &mut [u8], at: usize, bytes: [u8; 64], n: usize) -> usize
    requires { at + 128 ≤ length out.old }
    ensures put { Put out.old at (hex (take n bytes)) out.new result }
    ensures upper_bound { result ≤ at + 128 }
{
    script_text::put_hex(out, at, &bytes[..n.min(64)])
}

fn put_pair(out: &mut [u8], at: usize, first: u64, between: u8, second: u64) -> usize
    requires { at + 41 ≤ length out.old }
    ensures put { Put out.old at (pair_text first between second) out.new result }
    ensures upper_bound { result ≤ at + 41 }
{
    let k = script_text::put_decimal(out, at, first);
    let k = pieces::put_byte(out, k, between);
    script_text::put_decimal(out, k, second)
}

#[tactic(auto, unfolding(crate::specs::Entry::cached_text))]
fn put_cached(out: &mut [u8], at: usize, cached: Cached) -> usize
    requires { at + 41 ≤ length out.old }
    ensures put { Put out.old at (cached_text cached) out.new result }
    ensures upper_bound { result ≤ at + 41 }
{
    if !cached.held {
        return pieces::put_byte(out, at, b'-');
    }
    let head = u64::from(cached.head);
    let payload = u64::from(cached.payload);
    put_pair(out, at, head, b'+', payload)
}

// INDEX,KEY,TOUCHED
fn put_who(out: &mut [u8], at: usize, i: u64, key: Key, touched: u64) -> usize
    requires { at + 200 ≤ length out.old }
    ensures put { Put out.old at (who_text i key touched) out.new result }
    ensures upper_bound { result ≤ at + 200 }
{
    let k = script_text::put_decimal(out, at, i);
    let k = pieces::put_byte(out, k, b',');
    let k = put_key(out, k, key.bytes, usize::from(key.len));
    let k = pieces::put_byte(out, k, b',');
    script_text::put_decimal(out, k, touched)
}

// ASSEMBLED,KEPT,CACHE,RECORDED
fn put_what(out: &mut [u8], at: usize, state: BlockState) -> usize
    requires { at + 199 ≤ length out.old }
    ensures put { Put out.old at (what_text state) out.new result }
    ensures upper_bound { result ≤ at + 199 }
{
    let assembled = state.assembled;
    let k = put_pair(
        out,
        at,
        u64::from(assembled.len),
        b',',
        u64::from(assembled.exponent),
    );
    let k = pieces::put_byte(out, k, b',');
    let k = put_cached(out, k, state.cached);
    let k = pieces::put_byte(out, k, b',');
    script_text::put_maybe(out, k, state::recorded_block(state.recorded))
}

pub fn put_entry(out: &mut [u8], at: usize, i: u64, e: Entry) -> usize
    requires { at + 400 ≤ length out.old }
    ensures put { Put out.old at (entry_text i e) out.new result }
    ensures upper_bound { result ≤ at + 400 }
{
    let k = put_who(out, at, i, e.key, e.touched);
    let k = pieces::put_byte(out, k, b',');
    put_what(out, k, e.state)
}
