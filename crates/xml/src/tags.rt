// Tags, from behind their `<` on.
ghost use Rattle.std.specs.Prelude.{◌≡◌, List, ℕ, ◌≤◌, length, get_or};
ghost use Rattle.xml.specs.CheckSteps.{at, key, keyed, equals, valued, tag, closed, reads, leave};
ghost use Rattle.xml.specs.ScanSteps.{Scans, ScansByte, ScansTag, ShutsTag, Starts};

use super::FormError;
use super::bytes::{byte, kind, past_name, past_spaces, word_end};
use super::characters::value_end;

// White space, and then the byte b.
fn byte_end(text: &[u8], from: usize, b: u8) -> Result<usize, FormError>
    requires { from ≤ length text.now }
    ensures { ScansByte text.now from b result }
{
    let i = past_spaces(text, from);
    match text.get(i) {
        Some(c) if *c == b => Ok(i + 1),
        _ => Err(FormError { front: i }),
    }
}

// An attribute's value in quotes, from behind the `=` on.
fn quoted_end(text: &[u8], from: usize) -> Result<usize, FormError>
    requires { from ≤ length text.now }
    ensures { Scans text.now from (at equals) (at valued) result }
{
    let i = past_spaces(text, from);
    let q = byte(text, i);
    if q == b'"' || q == b'\'' {
        value_end(text, i + 1, q)
    } else {
        Err(FormError { front: i })
    }
}

// An attribute, from behind the first letter of its name on.
fn attribute_end(text: &[u8], from: usize) -> Result<usize, FormError>
    requires { from ≤ length text.now }
    ensures { Scans text.now from (at key) (at valued) result }
{
    let i = past_name(text, from);
    let j = byte_end(text, i, b'=')?;
    quoted_end(text, j)
}

// What ends a start tag: `>` or `/>`.
#[derive(Clone, Copy, PartialEq, Eq, Debug)]
enum TagEnd {
    Open,
    Empty,
}

// The `>` or `/>` of a start tag, and the position behind it.
fn close(text: &[u8], from: usize) -> Result<(TagEnd, usize), FormError>
    requires { from ≤ length text.now }
    ensures { ShutsTag text.now from result }
{
    let b = byte(text, from);
    if b == b'>' {
        return Ok((TagEnd::Open, from + 1));
    }
    if b != b'/' {
        return Err(FormError { front: from });
    }
    let i = from + 1;
    if byte(text, i) == b'>' {
        Ok((TagEnd::Empty, i + 1))
    } else {
        Err(FormError { front: i })
    }
}

// The rest of a start tag, from the end of its name on.
fn tag_end(text: &[u8], from: usize) -> Result<(TagEnd, usize), FormError>
    requires { from ≤ length text.now }
    ensures { ScansTag text.now from (at tag) result }
{
    let i = past_spaces(text, from);
    if kind(byte(text, i)) != b'a' {
        return close(text, i);
    }
    let j = attribute_end(text, i + 1)?;
    close(text, past_spaces(text, j))
}

// A start tag, from the first letter of its name on: the name of the element that it opens, or none of an empty-element tag; and the position
// behind the tag.
pub(crate) fn start_tag(text: &[u8], from: usize) -> Result<(Option<&[u8]>, usize), FormError>
    requires { from ≤ length text.now }
    ensures { Starts text.now from result }
{
    if kind(byte(text, from)) != b'a' {
        return Err(FormError { front: from });
    }
    let e = past_name(text, from);
    match tag_end(text, e)? {
        (TagEnd::Open, j) => Ok((Some(&text[from..e]), j)),
        (TagEnd::Empty, j) => Ok((None, j)),
    }
}

// The same; quicker where the tag has a name alone, as most have.
pub(crate) fn inner_tag(text: &[u8], from: usize) -> Result<(Option<&[u8]>, usize), FormError>
    requires { from ≤ length text.now }
    ensures { Starts text.now from result }
{
    if kind(byte(text, from)) == b'a' {
        let e = past_name(text, from);
        if byte(text, e) == b'>' {
            return Ok((Some(&text[from..e]), e + 1));
        }
    }
    start_tag(text, from)
}

// The end tag of an element with this name, from behind its `</` on. Where the name is another, `word_end` finds its first byte that does not fit.
pub(crate) fn end_tag(text: &[u8], from: usize, name: &[u8]) -> Result<usize, FormError>
    requires { from ≤ length text.now }
    ensures { Scans text.now from (at (reads closed name.now)) leave result }
{
    if name.len() <= text.len() - from {
        let end = from + name.len();
        if slices::same(&text[from..end], name) {
            return byte_end(text, end, b'>');
        }
    }
    let j = word_end(text, from, name)?;
    byte_end(text, j, b'>')
}
