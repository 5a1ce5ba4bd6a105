// Characters and references, and what is made of them: attribute values and text.
ghost use Rattle.std.specs.Prelude.{◌≡◌, [], ◌∷◌, ℕ, ◌+◌, ◌≤◌, ◌<◌, length, false};
ghost use Rattle.slices.specs.Slices.{within};
ghost use Rattle.xml.specs.CheckSteps.{Mode, at, more, lead239, amp, amp_a, value, valued, content, words, opens};
ghost use Rattle.xml.specs.ScanSteps.{Scans, Completes, TextTo, first, rest};

use super::FormError;
use super::bytes::{byte, kind, past_text, word_end};

// A byte of a character, from lo to hi, at i.
fn within_end(text: &[u8], i: usize, lo: u8, hi: u8) -> Result<usize, FormError>
    requires { i ≤ length text.now }
    ensures { (p : Mode) (n : ℕ) → Scans text.now i (at (more p lo hi n)) (rest p n) result }
{
    match text.get(i) {
        Some(b) if lo <= *b && *b <= hi => Ok(i + 1),
        _ => Err(FormError { front: i }),
    }
}

// The rest of a character: a byte from lo to hi, then n bytes from 128 to 191.
fn tail_end(text: &[u8], from: usize, lo: u8, hi: u8, n: usize) -> Result<usize, FormError>
    requires { from ≤ length text.now }
    ensures { (p : Mode) → Scans text.now from (at (more p lo hi n)) (at p) result }
{
    let mut i = within_end(text, from, lo, hi)?;
    for _ in 0..n {
        i = within_end(text, i, 128, 191)?;
    }
    Ok(i)
}

// A character after its first byte, 239.
fn end_239(text: &[u8], from: usize) -> Result<usize, FormError>
    requires { from ≤ length text.now }
    ensures { (p : Mode) → Scans text.now from (at (lead239 p)) (at p) result }
{
    match byte(text, from) {
        128..=190 => tail_end(text, from + 1, 128, 191, 0),
        191 => tail_end(text, from + 1, 128, 189, 0),
        _ => Err(FormError { front: from }),
    }
}

// A character after its first byte, b, which is no ASCII.
fn wide_end(text: &[u8], i: usize, b: u8) -> Result<usize, FormError>
    requires { (i < length text.now) × (128 ≤ b) }
    ensures { (p : Mode) → Scans text.now (i + 1) (first p b) (at p) result }
{
    match b {
        194..=223 => tail_end(text, i + 1, 128, 191, 0),
        224 => tail_end(text, i + 1, 160, 191, 1),
        225..=236 | 238 => tail_end(text, i + 1, 128, 191, 1),
        237 => tail_end(text, i + 1, 128, 159, 1),
        239 => end_239(text, i + 1),
        240 => tail_end(text, i + 1, 144, 191, 2),
        241..=243 => tail_end(text, i + 1, 128, 191, 2),
        244 => tail_end(text, i + 1, 128, 143, 2),
        _ => Err(FormError { front: i }),
    }
}

// A reference after `&a`.
fn reference_a_end(text: &[u8], from: usize) -> Result<usize, FormError>
    requires { from ≤ length text.now }
    ensures { (p : Mode) → Scans text.now from (at (amp_a p)) (at p) result }
{
    match text.get(from) {
        Some(b'm') => word_end(text, from + 1, b"p;"),
        Some(b'p') => word_end(text, from + 1, b"os;"),
        _ => Err(FormError { front: from }),
    }
}

// A reference after `&`.
fn reference_end(text: &[u8], from: usize) -> Result<usize, FormError>
    requires { from ≤ length text.now }
    ensures { (p : Mode) → Scans text.now from (at (amp p)) (at p) result }
{
    match text.get(from) {
        Some(b'a') => reference_a_end(text, from + 1),
        Some(b'l') => word_end(text, from + 1, b"t;"),
        Some(b'g') => word_end(text, from + 1, b"t;"),
        Some(b'q') => word_end(text, from + 1, b"uot;"),
        _ => Err(FormError { front: from }),
    }
}

// The character whose first byte, at i, is b, or the reference. By tests in this order: a `match` of all comes last to what is no ASCII.
#[inline(always)]
fn char_end(text: &[u8], i: usize, b: u8) -> Result<usize, FormError>
    requires { i < length text.now }
    ensures { (p : Mode) → Scans text.now (i + 1) (first p b) (at p) result }
{
    if 128 <= b {
        return wide_end(text, i, b);
    }
    if b == b'&' {
        return reference_end(text, i + 1);
    }
    if 32 <= b {
        return Ok(i + 1);
    }
    match b {
        b'\t' | b'\n' | b'\r' => Ok(i + 1),
        _ => Err(FormError { front: i }),
    }
}

// The rest of an attribute's value that ends with the quote q. No `for`, since a turn passes a whole character or reference.
pub(crate) fn value_end(text: &[u8], from: usize, q: u8) -> Result<usize, FormError>
    requires { from ≤ length text.now }
    ensures { Scans text.now from (at (value q)) (at valued) result }
{
    let mut i = from;
    while let Some(&b) = text.get(i) {
        if b == q {
            return Ok(i + 1);
        }
        if b == b'<' {
            return Err(FormError { front: i });
        }
        i = char_end(text, i, b)?;
    }
    Err(FormError { front: i })
}

// Whether b may follow the first byte of a character.
fn continues(b: u8) -> bool
    ensures { result ≡ within 128 191 b }
{
    (128..=191).contains(&b)
}

// Whether these are the bytes of a character.
fn two_bytes(b: u8, c: u8) -> bool
    requires { (128 ≤ b) × (b < 224) }
    ensures { Completes b (c ∷ []) result }
{
    194 <= b && continues(c)
}

// Whether these are the bytes of a character; U+FFC0 to U+FFFF are left to the general scan.
fn three_bytes(b: u8, c: u8, d: u8) -> bool
    requires { (224 ≤ b) × (b < 240) }
    ensures { Completes b (c ∷ d ∷ []) result }
{
    if continues(c) && continues(d) {
        match b {
            224 => 160 <= c,
            237 => c <= 159,
            239 => c < 191,
            _ => true,
        }
    } else {
        false
    }
}

// Whether these are the bytes of a character; U+100000 and above are left to the general scan.
fn four_bytes(b: u8, c: u8, d: u8, e: u8) -> bool
    requires { 240 ≤ b }
    ensures { Completes b (c ∷ d ∷ e ∷ []) result }
{
    if continues(c) && continues(d) && continues(e) {
        match b {
            240 => 144 <= c,
            _ => b < 244,
        }
    } else {
        false
    }
}

// The end of characters of text from `from` on, of one byte and of more. It stops at the latest at one that is under a further rule or not well-formed,
// or at the last three bytes. By index: a turn passes one to four bytes. Inlined, since text often has few between two brackets or references.
#[inline(always)]
fn past_wide(text: &[u8], from: usize) -> usize
    requires { from ≤ length text.now }
    ensures { TextTo text.now from result }
{
    let mut i = from;
    while 4 <= text.len() - i {
        let b = text[i];
        if b < 128 {
            if kind(b) == b'e' {
                return i;
            }
            i += 1;
        } else if b < 224 {
            if !two_bytes(b, text[i + 1]) {
                return i;
            }
            i += 2;
        } else if b < 240 {
            if !three_bytes(b, text[i + 1], text[i + 2]) {
                return i;
            }
            i += 3;
        } else {
            if !four_bytes(b, text[i + 1], text[i + 2], text[i + 3]) {
                return i;
            }
            i += 4;
        }
    }
    i
}

// The same, quicker where all are of one byte.
fn past_chars(text: &[u8], from: usize) -> usize
    requires { from ≤ length text.now }
    ensures { TextTo text.now from result }
{
    let i = past_text(text, from);
    if byte(text, i) < 128 {
        i
    } else {
        past_wide(text, i)
    }
}

// The rest of an element's text, with the `<` behind it. No `for`, for the same reason.
pub(crate) fn text_end(text: &[u8], from: usize) -> Result<usize, FormError>
    requires { from ≤ length text.now }
    ensures { Scans text.now from (at (content (words 0))) (at (opens false)) result }
{
    let mut i = past_chars(text, from);
    let mut n: usize = 0;
    while let Some(&b) = text.get(i) {
        if b == b'<' {
            return Ok(i + 1);
        }
        if b == b']' {
            n = usize::min(2, n + 1);
            i += 1;
        } else {
            if b == b'>' && n == 2 {
                return Err(FormError { front: i });
            }
            n = 0;
            i = past_wide(text, char_end(text, i, b)?);
        }
    }
    Err(FormError { front: i })
}
