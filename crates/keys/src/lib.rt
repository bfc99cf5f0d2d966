// A stored key: its limits, its bytes, its tag, and when two are the same; and the form of a named one, which `named_keys` makes. Only these two crates and the text of
// the state look inside a `Key`.
#![tactic(auto)]

ghost use Rattle.std.specs.Prelude.{◌≡◌, true, ◌+◌, ◌≤◌, length, take, eqb};
ghost use Rattle.pieces.specs.Memory.{Put};
ghost use Rattle.keys.specs.Lists.{all};
ghost use Rattle.keys.specs.Keys.{same, key_of, stored_ok, stored, no_key, is_no_key, key_sized, tag_of};

// Without a derived `==`, which would compare the bytes past `len`, too.
#[repr(C)]
#[derive(Clone, Copy)]
pub struct Key {
    pub bytes: [u8; 64],
    pub len: u8,
}

// A key as a call names it, copied once: whether it is within its limits, and then its tag, and the key as an entry stores it.
// Not an `Option`: the walk over the table is made for a bad key, too, by the tag 0 and no key, and would take it apart for each.
#[derive(Clone, Copy)]
pub struct NamedKey {
    pub ok: bool,
    pub tag: u32,
    pub key: Key,
}

// ---- Limits

pub fn stored_ok(key: Key) -> bool
    ensures { result ≡ stored_ok key }
{
    (1 <= key.len) & (key.len <= 64)
}

// ---- The key of a free entry

pub fn no_key() -> Key
    ensures { result ≡ no_key }
{
    Key {
        bytes: [0; 64],
        len: 0,
    }
}

pub fn is_no_key(key: Key) -> bool
    ensures { (result ≡ is_no_key key) × (key_sized key ≡ true) }
{
    (key.bytes == [0; 64]) & (key.len == 0)
}

// ---- The bytes of a stored key: the first `len`, all of them where `len` is above 64

// How many they are. Its contract gives the proof the length of the array, too.
fn cut(key: Key) -> usize
    ensures { (take result key.bytes ≡ key_of key) × (result ≤ 64) × (length key.bytes ≡ 64) }
{
    usize::from(key.len).min(64)
}

// Writes a key of 64 bytes at an index: its own, with zeros behind them.
pub fn put_key(out: &mut [u8], at: usize, key: Key) -> usize
    requires { at + 64 ≤ length out.old }
    ensures { (Put out.old at (stored (key_of key)).bytes out.new result) × (length (stored (key_of key)).bytes ≡ 64) }
{
    let n = cut(key);
    let to = pieces::put(out, at, &key.bytes[..n]);
    pieces::zero_fill(out, to, 64 - n);
    at + 64
}

pub fn same_bytes(a: &[u8], b: &[u8]) -> bool
    ensures { result ≡ same a.now b.now }
{
    a == b
}

// The stored key is the one that these bytes name.
pub fn same_as(key: &[u8], stored: Key) -> bool
    ensures { result ≡ same key.now (key_of stored) }
{
    let n = cut(stored);
    same_bytes(key, &stored.bytes[..n])
}

pub fn same_key(a: Key, b: Key) -> bool
    ensures { result ≡ same (key_of a) (key_of b) }
{
    let n = cut(a);
    same_as(&a.bytes[..n], b)
}

// Keys that are the same have one tag, which is odd.
pub fn tag(key: Key) -> u32
    ensures { result ≡ tag_of (key_of key) }
{
    tags::fold(digest::digest(key.bytes, cut(key)))
}
