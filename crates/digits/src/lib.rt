// Decimal and hex digits: numbers read from a text and written into one, and which bytes are hex digits.
#![tactic(auto)]

pub mod hex;

ghost use Rattle.std.specs.Prelude.{◌≡◌, ◌%◌, length};
ghost use Rattle.slices.specs.Writers.{Puts};
ghost use Rattle.digits.specs.Decimal.{run, plain, plain_number, byte_of, short};
ghost use Rattle.digits.specs.Steps.{of_few};

use refusals::Refusal;

// The number that a run of digits says, leading zeros or not.
pub fn read_run(s: &[u8]) -> Option<u64>
    ensures { result ≡ run s.now }
{
    if s.is_empty() {
        return None;
    }
    let mut v: u64 = 0;
    for b in s {
        if !b.is_ascii_digit() {
            return None;
        }
        v = v.checked_mul(10)?.checked_add(u64::from(*b - b'0'))?;
    }
    Some(v)
}

// The same of up to 19 digits alone: no digit takes their number past 64 bits, so none is tested for that.
pub fn read_few(s: &[u8]) -> Option<u64>
    ensures { result ≡ of_few s.now }
{
    if s.is_empty() || 19 < s.len() {
        return None;
    }
    let mut v: u64 = 0;
    for b in s {
        if !b.is_ascii_digit() {
            return None;
        }
        v = v * 10 + u64::from(*b - b'0');
    }
    Some(v)
}

// Whether digits do not begin with a zero that is not alone.
fn is_plain(s: &[u8]) -> bool
    ensures { result ≡ plain s.now }
{
    match s {
        [] => false,
        [_] => true,
        [first, ..] => *first != b'0',
    }
}

// The number that a plain run of digits says.
pub fn read_plain(s: &[u8]) -> Option<u64>
    ensures { result ≡ plain_number s.now }
{
    if is_plain(s) { read_run(s) } else { None }
}

// How many digits n has in short form: 1 to 20.
pub fn width(n: u64) -> usize
    ensures { result ≡ length (short n) }
{
    match n.checked_ilog10() {
        Some(power) => power as usize + 1,
        None => 1,
    }
}

// The ASCII digit of v's last digit.
fn last(v: u64) -> u8
    ensures { result ≡ byte_of (v % 10) }
{
    b'0' + (v % 10) as u8
}

// Writes n's digits into out from its place at, the last one first, if there is room for all.
pub fn write(out: &mut [u8], at: usize, n: u64) -> Result<usize, Refusal>
    ensures { Puts at (short n) out.old out.new result }
{
    let w = width(n);
    if out.len() < at || out.len() - at < w {
        return Err(Refusal::Short);
    }
    let mut v = n;
    for i in (at..at + w).rev() {
        out[i] = last(v);
        v /= 10;
    }
    Ok(at + w)
}
