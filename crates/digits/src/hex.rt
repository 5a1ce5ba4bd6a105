// Hex digits, and texts without their case. `is_hex` says what they are, by the ranges that 002 names in 5.8; the code asks std's test for them.
ghost use Rattle.std.specs.Prelude.{◌≡◌, map};
ghost use Rattle.slices.specs.Slices.{same};
ghost use Rattle.digits.specs.Hex.{is_hex};
ghost use Rattle.digits.specs.Steps.{folded};

// Whether b is a hex digit.
pub fn is_digit(b: u8) -> bool
    ensures { result ≡ is_hex b }
{
    b.is_ascii_hexdigit()
}

// A capital hex digit as the small one, any other byte as it is.
fn fold(b: u8) -> u8
    ensures { result ≡ folded b }
{
    if (b'A'..=b'F').contains(&b) {
        b'a' + (b - b'A')
    } else {
        b
    }
}

// Whether a and b are the same but for the case of hex digits.
pub fn same_folded(a: &[u8], b: &[u8]) -> bool
    ensures { result ≡ same (map folded a.now) (map folded b.now) }
{
    a.len() == b.len() && a.iter().zip(b).all(|(x, y)| fold(*x) == fold(*y))
}
