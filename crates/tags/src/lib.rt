// A digest folded to a tag, and whether sixteen tags all differ: how the keys of a table are told apart without comparing all pairs.
#![tactic(auto)]

ghost use Rattle.std.specs.Prelude.{◌≡◌, cond, ◌+◌, ◌*◌, ◌/◌, ◌%◌, ◌≤◌, ◌<◌, eqb};
ghost use Rattle.tags.specs.Tags.{folded, times, pairs};

// Odd, so that even numbers are left for entries without a key.
pub fn fold(d: u64) -> u32
    ensures { result ≡ folded d }
{
    let high = d >> 32;
    let low = d % (1 << 32);
    let mixed = high * 1812433253 + low * 974711381;
    ((mixed >> 25) % (1 << 31)) as u32 * 2 + 1
}

// How often d stands in the row.
fn count(d: u32, row: [u32; 16]) -> u32
    ensures { (result ≡ times d row) × (result ≤ 16) }
{
    let mut n = 0;
    for &x in &row {
        n += u32::from(x == d);
    }
    n
}

// No two numbers of the row are equal: each equals itself alone. All 256 pairs are counted, since such a loop is vectorised.
pub fn apart(row: [u32; 16]) -> bool
    ensures { result ≡ eqb (pairs row row) 16 }
{
    let mut n = 0;
    for &d in &row {
        n += count(d, row);
    }
    n == 16
}
