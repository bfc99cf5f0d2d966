// The key that a call names, read once.
#![tactic(auto)]

ghost use Rattle.std.specs.Prelude.{◌≡◌, ◌≤◌, length, take};
ghost use Rattle.keys.specs.Keys.{key_ok, stored, named_of};

use keys::{Key, NamedKey};

fn key_ok(key: &[u8]) -> bool
    ensures { result ≡ key_ok key.now }
{
    (1 <= key.len()) & (key.len() <= 64)
}

fn stored_key(key: &[u8]) -> Key
    requires { length key.now ≤ 64 }
    ensures { result ≡ stored key.now }
{
    let mut bytes = [0; 64];
    bytes[..key.len()].copy_from_slice(key);
    Key {
        bytes,
        len: key.len() as u8,
    }
}

// The key that stands in 64 bytes: the first `len` of them.
pub fn read_key(bytes: &[u8], len: u8) -> Key
    requires { length bytes.now ≡ 64 }
    ensures { result ≡ stored (take len bytes.now) }
{
    let n = usize::from(len).min(64);
    stored_key(&bytes[..n])
}

// The handler's two calls read the bytes of their key here, and nowhere else.
pub fn named(key: &[u8]) -> NamedKey
    ensures { result ≡ named_of key.now }
{
    if key_ok(key) {
        let key = stored_key(key);
        return NamedKey {
            ok: true,
            tag: keys::tag(key),
            key,
        };
    }
    NamedKey {
        ok: false,
        tag: 0,
        key: keys::no_key(),
    }
}
