// The CoAP options that RFC 7252, RFC 7641 and RFC 7959 register, and the lengths that a value may have.
#![tactic(auto)]

ghost use Rattle.std.specs.Prelude.{◌≡◌, map};
ghost use Rattle.option_table.specs.Options.{table, row_of, limited, allowed_of};

// Whether a number is in the table, and a length within its limits. Three answers with names of their own, which an Option<bool> would not have.
#[derive(Clone, Copy, Debug, PartialEq, Eq)]
pub enum Length {
    Unknown,
    Allowed,
    NotAllowed,
}

// The table: each number, and the least and the most bytes of its value. The numbers rise.
static TABLE: [(u16, usize, usize); 19] = [
    (1, 0, 8), // If-Match
    (3, 1, 255), // Uri-Host
    (4, 1, 8), // ETag
    (5, 0, 0), // If-None-Match
    (6, 0, 3), // Observe
    (7, 0, 2), // Uri-Port
    (8, 0, 255), // Location-Path
    (11, 0, 255), // Uri-Path
    (12, 0, 2), // Content-Format
    (14, 0, 4), // Max-Age
    (15, 0, 255), // Uri-Query
    (17, 0, 2), // Accept
    (20, 0, 255), // Location-Query
    (23, 0, 3), // Block2
    (27, 0, 3), // Block1
    (28, 0, 4), // Size2
    (35, 1, 1034), // Proxy-Uri
    (39, 1, 255), // Proxy-Scheme
    (60, 0, 4), // Size1
];

// The rows are those of the table that the definitions speak of.
fn rows() -> &'static [(u16, usize, usize)]
    ensures { result.now ≡ map row_of table }
{
    &TABLE
}

fn within(least: usize, most: usize, len: usize) -> Length
    ensures { result ≡ limited least most len }
{
    if least <= len && len <= most {
        Length::Allowed
    } else {
        Length::NotAllowed
    }
}

// Whether the value of an option may have len bytes.
pub fn length_allowed(number: u16, len: usize) -> Length
    ensures { result ≡ allowed_of number len }
{
    for (registered, least, most) in rows() {
        if number < *registered {
            return Length::Unknown;
        }
        if number == *registered {
            return within(*least, *most, len);
        }
    }
    Length::Unknown
}
