// Texts and attribute values decoded: the five references replaced.
#![tactic(auto)]

ghost use Rattle.std.specs.Prelude.{◌≡◌, cond, ◌≤◌, length, drop, get_or};
ghost use Rattle.std.specs.Iterator.{YieldsFirst, item_count};
ghost use Rattle.slices.specs.Slices as slices;
ghost use Rattle.slices.specs.Words.{bytes};
ghost use Rattle.slices.specs.Writers.{Puts};
ghost use Rattle.texts.specs.Decoded.{begins, meant, reference_meant, decoded, code_points, continues};
ghost use Rattle.texts.specs.Steps.{NextByte};

use refusals::Refusal;

// What an `&` before raw means if no reference but the one that word spells can follow it, and what comes behind that.
fn named<'a>(raw: &'a [u8], word: &[u8], byte: u8) -> (u8, &'a [u8])
    ensures { let m = cond (begins word.now raw.now) (meant byte (length word.now)) (meant 38 0) in (result.0 ≡ m.byte) × (result.1.now ≡ drop m.more raw.now) }
{
    match raw.strip_prefix(word) {
        Some(rest) => (byte, rest),
        None => (b'&', raw),
    }
}

// The same if none but the references to quotes can follow it. Their length is asked first: without it the compiler makes one jump over all first letters,
// which costs `lt;` and `gt;` a third more.
#[inline(always)]
#[tactic(auto, using(crate::proofs::Meanings::begins_short), unfolding(slices::specs::Words::bytes))]
fn quote(raw: &[u8]) -> (u8, &[u8])
    ensures { let m = cond (begins (bytes "quot;") raw.now) (meant 34 5) (cond (begins (bytes "apos;") raw.now) (meant 39 5) (meant 38 0)) in (result.0 ≡ m.byte) × (result.1.now ≡ drop m.more raw.now) }
{
    if raw.len() < 5 {
        return (b'&', raw);
    }
    match raw.first() {
        Some(b'q') => named(raw, b"quot;", b'"'),
        Some(b'a') => named(raw, b"apos;", b'\''),
        _ => (b'&', raw),
    }
}

// What an `&` before raw means, and what follows its reference.
#[tactic(auto, unfolding(crate::specs::Decoded::reference_meant, slices::specs::Words::bytes))]
fn reference(raw: &[u8]) -> (u8, &[u8])
    ensures { let m = reference_meant raw.now in (result.0 ≡ m.byte) × (result.1.now ≡ drop m.more raw.now) }
{
    if let Some(rest) = raw.strip_prefix(b"amp;") {
        return (b'&', rest);
    }
    match raw.first() {
        Some(b'l') => named(raw, b"lt;", b'<'),
        Some(b'g') => named(raw, b"gt;", b'>'),
        _ => quote(raw),
    }
}

// The byte that is meant at at, and the place behind what spells it; None at the end of the text and past it.
#[tactic(auto, using(crate::proofs::Meanings::decoded_end, crate::proofs::Meanings::plain_at))]
pub fn next_byte(raw: &[u8], at: usize) -> Option<(u8, usize)>
    ensures { NextByte raw.now at result }
{
    let (first, rest) = raw.get(at..)?.split_first()?;
    if *first != b'&' {
        return Some((*first, at + 1));
    }
    let (byte, rest) = reference(rest);
    Some((byte, raw.len() - rest.len()))
}

// The bytes that are meant by what is left of a text, one after the other.
#[derive(Clone, Copy)]
pub struct DecodedBytes<'a> {
    pub raw: &'a [u8],
}

impl<'a> Iterator for DecodedBytes<'a> {
    type Item = u8;

    ghost next_gives = { YieldsFirst (λ s. decoded s.raw.now) };

    ghost remaining = { item_count (λ s. decoded s.raw.now) };

    fn next(&mut self) -> Option<u8> {
        let (byte, behind) = next_byte(self.raw, 0)?;
        self.raw = &self.raw[behind..];
        Some(byte)
    }
}

// The bytes that are meant.
pub fn decoded(raw: &[u8]) -> DecodedBytes<'_>
    ensures { result.raw.now ≡ raw.now }
{
    DecodedBytes { raw }
}

// How many bytes are meant.
#[tactic(auto, using(crate::proofs::Entities::decoded_shorter))]
pub fn decoded_len(raw: &[u8]) -> usize
    ensures { result ≡ length (decoded raw.now) }
{
    decoded(raw).count()
}

// Whether a byte continues a code point.
fn continues(b: u8) -> bool
    ensures { result ≡ continues b }
{
    (128..=191).contains(&b)
}

// How many code points are meant.
#[tactic(auto, using(crate::proofs::Entities::decoded_shorter))]
pub fn code_points(raw: &[u8]) -> usize
    ensures { result ≡ code_points (decoded raw.now) }
{
    decoded(raw).filter(|b| !continues(*b)).count()
}

// The k-th byte that is meant, 0 past the end.
pub fn decoded_byte(raw: &[u8], k: usize) -> u8
    ensures { result ≡ get_or (decoded raw.now) k 0 }
{
    decoded(raw).nth(k).unwrap_or(0)
}

// Whether a and b mean the same bytes.
pub fn same_decoded(a: &[u8], b: &[u8]) -> bool
    ensures { result ≡ slices.same (decoded a.now) (decoded b.now) }
{
    decoded(a).eq(decoded(b))
}

// Writes the bytes that are meant into out from its place at, if there is room for all of them.
pub fn decode(raw: &[u8], out: &mut [u8], at: usize) -> Result<usize, Refusal>
    ensures { Puts at (decoded raw.now) out.old out.new result }
{
    if out.len() < at || out.len() - at < decoded_len(raw) {
        return Err(Refusal::Short);
    }
    let mut end = at;
    for b in decoded(raw) {
        out[end] = b;
        end += 1;
    }
    Ok(end)
}
