// Values (01, Values): what the text of an element says, as spelled (raw), and whether it is lawful.
#![tactic(auto)]

mod numbers;

ghost use Rattle.std.specs.Prelude.{◌≡◌, ◌||◌, ◌+◌, ◌-◌, ◌<◌, ◌≤◌, length};
ghost use Rattle.slices.specs.Slices.{within, every};
ghost use Rattle.texts.specs.Decoded.{decoded};
ghost use Rattle.slices.specs.Slices as slices;
ghost use Rattle.values.specs.Values.{boolean, letter, version, by_pattern, in_pattern, two, in_ranges, is_plain, is_time, is_uuid, same_uuid, is_creator, is_name, is_root_name};
ghost use Rattle.values.specs.Steps.{between, is_common};

pub use numbers::read_number;

// The boolean that raw says.
#[tactic(auto, unfolding(crate::specs::Values::boolean, slices::specs::Words::bytes))]
pub fn read_boolean(raw: &[u8]) -> Option<bool>
    ensures { result ≡ boolean raw.now }
{
    match raw {
        b"true" | b"1" => Some(true),
        b"false" | b"0" => Some(false),
        _ => None,
    }
}

// Whether a byte is as a pattern's byte says.
#[tactic(auto, unfolding(crate::specs::Values::by_pattern))]
fn is_by_pattern(p: u8, b: u8) -> bool
    ensures { result ≡ by_pattern p b }
{
    match p {
        b'#' => b.is_ascii_digit(),
        b'*' => digits::hex::is_digit(b),
        _ => p == b,
    }
}

// Whether each byte of raw is as the pattern's says.
#[tactic(auto, using(crate::proofs::Patterns::pattern_differs))]
fn is_in_pattern(pattern: &[u8], raw: &[u8]) -> bool
    ensures { result ≡ in_pattern pattern.now raw.now }
{
    pattern.len() == raw.len() && pattern.iter().zip(raw).all(|(p, b)| is_by_pattern(*p, *b))
}

// What an ASCII digit counts.
fn digit(b: u8) -> usize
    ensures value { result ≡ b - 48 }
    ensures byte { result ≤ 255 }
{
    usize::from(b.saturating_sub(b'0'))
}

// Whether the two digits at i are from lo to hi.
fn is_two(raw: &[u8], i: usize, lo: usize, hi: usize) -> bool
    requires { i + 1 < length raw.now }
    ensures { result ≡ within lo hi (two raw.now i) }
{
    (lo..=hi).contains(&(digit(raw[i]) * 10 + digit(raw[i + 1])))
}

// Whether the fields of a time in its pattern are in their ranges.
#[tactic(auto, unfolding(crate::specs::Values::in_ranges))]
fn is_in_ranges(raw: &[u8]) -> bool
    requires { length raw.now ≡ 30 }
    ensures { result ≡ in_ranges raw.now }
{
    is_two(raw, 5, 1, 12)
        && is_two(raw, 8, 1, 31)
        && is_two(raw, 11, 0, 23)
        && is_two(raw, 14, 0, 59)
        && is_two(raw, 17, 0, 59)
}

// Whether b is from low to high, by two comparisons that are both made.
fn is_within(low: u8, high: u8, b: u8) -> bool
    ensures { result ≡ within low high b }
{
    (low <= b) & (b <= high)
}

// Whether each byte of raw is from low's to high's. None of them ends the look at the others, so that the compiler compares many at once.
fn is_between(low: &[u8], high: &[u8], raw: &[u8]) -> bool
    requires low { length low.now ≡ length raw.now }
    requires high { length high.now ≡ length raw.now }
    ensures { result ≡ between low.now high.now raw.now }
{
    low.iter()
        .zip(high)
        .zip(raw)
        .fold(true, |so, ((l, h), b)| so & is_within(*l, *h, *b))
}

// Whether raw is a time.
pub fn is_time(raw: &[u8]) -> bool
    ensures { result ≡ is_time raw.now }
{
    raw.len() == 30
        && is_between(
            b"0000-00-00T00:00:00.000000000Z",
            b"9999-99-99T99:99:99.999999999Z",
            raw,
        )
        && is_in_ranges(raw)
}

// Whether raw is a UUID.
#[tactic(auto, unfolding(crate::specs::Values::is_uuid, slices::specs::Words::bytes))]
pub fn is_uuid(raw: &[u8]) -> bool
    ensures { result ≡ is_uuid raw.now }
{
    is_in_pattern(b"********-****-****-****-************", raw)
}

// Whether a and b are UUIDs, and the same. Mostly they are spelled alike: then b is not tested for itself.
#[tactic(auto, using(crate::proofs::Uuids::same_itself, crate::proofs::Uuids::same_but_case), unfolding(crate::specs::Values::same_uuid))]
pub fn same_uuid(a: &[u8], b: &[u8]) -> bool
    ensures { result ≡ same_uuid a.now b.now }
{
    is_uuid(a) && (a == b || is_uuid(b) && digits::hex::same_folded(a, b))
}

// The letter that raw says.
#[tactic(auto, using(crate::proofs::Parts::letter_one, crate::proofs::Parts::letter_none))]
pub fn read_letter(raw: &[u8]) -> Option<u8>
    ensures { result ≡ letter raw.now }
{
    match raw {
        [b] if quantities::is_letter(u64::from(*b)) => Some(*b),
        _ => None,
    }
}

// Whether b is not below 32, and no `/` where none may be.
fn is_plain(slash: bool, b: u8) -> bool
    ensures { result ≡ is_plain slash b }
{
    b >= b' ' && (slash || b != b'/')
}

// Whether each byte that raw means is plain.
fn all_plain(raw: &[u8], slash: bool) -> bool
    ensures { result ≡ every (is_plain slash) (decoded raw.now) }
{
    texts::decoded(raw).all(|b| is_plain(slash, b))
}

// Whether raw means a creator.
#[tactic(auto, unfolding(crate::specs::Values::is_creator))]
pub fn is_creator(raw: &[u8]) -> bool
    ensures { result ≡ is_creator (decoded raw.now) }
{
    (1..=255).contains(&texts::decoded_len(raw)) && all_plain(raw, true)
}

// Whether b is an ASCII character from space on, no `&` and no `/`. A letter or a digit is told by two comparisons.
#[tactic(auto, unfolding(crate::specs::Steps::is_common))]
fn is_common(b: u8) -> bool
    ensures { result ≡ is_common b }
{
    if b < b'0' {
        b >= b' ' && b != b'&' && b != b'/'
    } else {
        b.is_ascii()
    }
}

// Whether each byte of raw is such a character.
fn all_common(raw: &[u8]) -> bool
    ensures { result ≡ every is_common raw.now }
{
    raw.iter().all(|b| is_common(*b))
}

// Whether raw means a name. Mostly its bytes are common, and then it means itself, a code point each byte.
#[tactic(auto, using(crate::proofs::Common::name_common), unfolding(crate::specs::Values::is_name))]
pub fn is_name(raw: &[u8]) -> bool
    ensures { result ≡ is_name (decoded raw.now) }
{
    if all_common(raw) {
        (1..=255).contains(&raw.len())
    } else {
        (1..=255).contains(&texts::code_points(raw)) && all_plain(raw, false)
    }
}

// Whether raw means a name, or nothing, which the root directory's may.
#[tactic(auto, unfolding(crate::specs::Values::is_root_name))]
pub fn is_root_name(raw: &[u8]) -> bool
    ensures { result ≡ is_root_name (decoded raw.now) }
{
    texts::decoded_len(raw) == 0 || is_name(raw)
}

// The R of the version 2.0.R that raw says.
#[tactic(auto, unfolding(crate::specs::Values::version, slices::specs::Words::bytes))]
pub fn read_version(raw: &[u8]) -> Option<u64>
    ensures { result ≡ version raw.now }
{
    let release = digits::read_plain(raw.strip_prefix(b"2.0.")?);
    release.filter(|n| *n <= 65535)
}
