// Bytes by the kinds that the scanners tell apart, and runs of one kind. Each scan goes on from a place in the text, and not from the slice that is
// left: there a pointer and a length move at each byte, for 10 per cent more instructions of the check on a flat index, and 23 on deep nesting.
ghost use Rattle.std.specs.Prelude.{◌≡◌, ◌+◌, ◌≤◌, length, get_or};
ghost use Rattle.xml.specs.Bytes.{is_space, is_name_byte};
ghost use Rattle.xml.specs.CheckSteps.{Mode, at, reads};
ghost use Rattle.xml.specs.ScanSteps.{is_text, kind_of, up_to, Past, Along, Scans};

use super::FormError;

// The kind of each byte: `a` a letter, `b` another byte of a name, `c` another byte that text has under no further rule, `d` white space, `e` any
// other byte.
static KINDS: [u8; 256] = *b"\
    eeeeeeeeeddeedeeeeeeeeeeeeeeeeee\
    dccccceccccccbbcbbbbbbbbbbccecec\
    caaaaaaaaaaaaaaaaaaaaaaaaaaccecb\
    caaaaaaaaaaaaaaaaaaaaaaaaaaccccc\
    eeeeeeeeeeeeeeeeeeeeeeeeeeeeeeee\
    eeeeeeeeeeeeeeeeeeeeeeeeeeeeeeee\
    eeeeeeeeeeeeeeeeeeeeeeeeeeeeeeee\
    eeeeeeeeeeeeeeeeeeeeeeeeeeeeeeee";

// The kind of b.
pub(crate) fn kind(b: u8) -> u8
    ensures { result ≡ kind_of b }
{
    KINDS[usize::from(b)]
}

// The byte at i, and 0, which the form has nowhere, past the end.
pub(crate) fn byte(text: &[u8], i: usize) -> u8
    ensures { result ≡ get_or text.now i 0 }
{
    text.get(i).copied().unwrap_or(0)
}

// The end of the bytes from `from` on whose kinds are up to hi. Four bytes at a turn, by index: `position` looks at one.
fn skip(text: &[u8], from: usize, hi: u8) -> usize
    requires { from ≤ length text.now }
    ensures { Past (up_to hi) text.now from result }
{
    let mut i = from;
    while 4 <= text.len() - i {
        if hi < kind(text[i]) {
            return i;
        }
        if hi < kind(text[i + 1]) {
            return i + 1;
        }
        if hi < kind(text[i + 2]) {
            return i + 2;
        }
        if hi < kind(text[i + 3]) {
            return i + 3;
        }
        i += 4;
    }
    while i < text.len() && kind(text[i]) <= hi {
        i += 1;
    }
    i
}

// The end of the name bytes from `from` on.
pub(crate) fn past_name(text: &[u8], from: usize) -> usize
    requires { from ≤ length text.now }
    ensures { Past is_name_byte text.now from result }
{
    skip(text, from, b'b')
}

// Past spaces from `from` on; not all of them at the end of the text. Four at a turn, by index: most white space is the indentation of a line.
fn past_indentation(text: &[u8], from: usize) -> usize
    requires { from ≤ length text.now }
    ensures { Along is_space text.now from result }
{
    let mut i = from;
    while 4 <= text.len() - i {
        if text[i] != b' ' {
            return i;
        }
        if text[i + 1] != b' ' {
            return i + 1;
        }
        if text[i + 2] != b' ' {
            return i + 2;
        }
        if text[i + 3] != b' ' {
            return i + 3;
        }
        i += 4;
    }
    i
}

// The end of the white space from `from` on. No `for`, since a turn passes as many bytes as there are spaces.
pub(crate) fn past_spaces(text: &[u8], from: usize) -> usize
    requires { from ≤ length text.now }
    ensures { Past is_space text.now from result }
{
    let mut i = from;
    while i < text.len() && kind(text[i]) == b'd' {
        i = past_indentation(text, i + 1);
    }
    i
}

// The end of the bytes of text from `from` on that are under no further rule.
pub(crate) fn past_text(text: &[u8], from: usize) -> usize
    requires { from ≤ length text.now }
    ensures { Past is_text text.now from result }
{
    skip(text, from, b'd')
}

// Past the bytes of a word.
pub(crate) fn word_end(text: &[u8], from: usize, word: &[u8]) -> Result<usize, FormError>
    requires { from ≤ length text.now }
    ensures { (p : Mode) → Scans text.now from (at (reads p word.now)) (at p) result }
{
    let mut i = from;
    for c in word {
        match text.get(i) {
            Some(b) if *b == *c => i += 1,
            _ => return Err(FormError { front: i }),
        }
    }
    Ok(i)
}
