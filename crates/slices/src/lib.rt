// Slices of bytes: compared, taken in part, and written into.
#![tactic(auto)]

ghost use Rattle.std.specs.Prelude.{◌≡◌, take, drop};
ghost use Rattle.slices.specs.Slices as slices;
ghost use Rattle.slices.specs.Writers.{Puts};

use refusals::Refusal;

// Whether a and b hold the same bytes. The comparison is written out at its place; that of `==` is a call, for which names are too short.
pub fn same(a: &[u8], b: &[u8]) -> bool
    ensures { result ≡ slices.same a.now b.now }
{
    a.len() == b.len() && a.iter().zip(b).all(|(x, y)| x == y)
}

// So many bytes from a place on, as far as there are any.
pub fn part(s: &[u8], from: usize, len: usize) -> &[u8]
    ensures { result.now ≡ take len (drop from s.now) }
{
    let rest = &s[from.min(s.len())..];
    &rest[..len.min(rest.len())]
}

// Writes src into out from its place at, if there is room for all of it.
pub fn put(out: &mut [u8], at: usize, src: &[u8]) -> Result<usize, Refusal>
    ensures { Puts at src.now out.old out.new result }
{
    if out.len() < at || out.len() - at < src.len() {
        return Err(Refusal::Short);
    }
    // Compiled to memcpy; by copy_from_slice a library for C would need memmove from outside too.
    for (k, b) in src.iter().enumerate() {
        out[at + k] = *b;
    }
    Ok(at + src.len())
}
