// What the element whose tag is at n says: its name, its attribute, its text, its children.
ghost use Rattle.std.specs.Prelude.{◌||◌, ◌≡◌, ◌≤◌, eqb, length, drop};
ghost use Rattle.slices.specs.Slices as slices;
ghost use Rattle.xml.specs.Bytes.{is_space};
ghost use Rattle.xml.specs.Tree.{quoted};
ghost use Rattle.elements.specs.Reading.{head_at, children_at, has_element};
ghost use Rattle.elements.specs.TagSteps.{ChildrenFrom, TextAt};

use crate::tags::Tag;
use crate::{scan, tags};

// Its name.
pub fn name_of(text: &[u8], n: usize) -> &[u8]
    ensures { result.now ≡ (head_at text.now n).name }
{
    let a = scan::inside(text, n);
    let e = scan::name_end(text, a);
    &text[a..e]
}

// Whether that is its name.
pub fn name_is(text: &[u8], n: usize, name: &[u8]) -> bool
    ensures { result ≡ slices.same (head_at text.now n).name name.now }
{
    name_of(text, n) == name
}

// The name of its attribute, empty where it has none.
pub fn key_of(text: &[u8], n: usize) -> &[u8]
    ensures { result.now ≡ (head_at text.now n).key }
{
    let a = scan::inside(text, n);
    let k = scan::space_end(text, scan::name_end(text, a));
    let e = scan::name_end(text, k);
    &text[k..e]
}

// `"` or `'`.
fn is_quote(b: u8) -> bool
    ensures { result ≡ (eqb b 34 || eqb b 39) }
{
    matches!(b, b'"' | b'\'')
}

// What stands between the first quotes from at on, if they come before the tag's end.
fn quoted_from(text: &[u8], at: usize) -> &[u8]
    requires { at ≤ length text.now }
    ensures { result.now ≡ quoted (drop at text.now) }
{
    for (k, b) in text[at..].iter().enumerate() {
        if *b == b'>' {
            return &[];
        }
        if is_quote(*b) {
            let from = at + k + 1;
            return &text[from..scan::find(text, from, *b)];
        }
    }
    &[]
}

// The value of its attribute, as spelled; empty where it has none.
pub fn value_of(text: &[u8], n: usize) -> &[u8]
    ensures { result.now ≡ (head_at text.now n).value }
{
    let a = scan::inside(text, n);
    quoted_from(text, scan::name_end(text, a))
}

// A part of a text: where it begins, and how many bytes it has.
#[derive(Clone, Copy, Debug, PartialEq, Eq)]
pub struct Span {
    pub from: usize,
    pub len: usize,
}

// Where its text up to the next tag stands.
pub fn text_at(text: &[u8], n: usize) -> Span
    ensures { TextAt text.now n result }
{
    let tag = scan::tag_end(text, scan::inside(text, n));
    let from = tag.at;
    if tag.empty {
        return Span { from, len: 0 };
    }
    Span {
        from,
        len: scan::find(text, from, b'<') - from,
    }
}

// That text, as spelled; empty for an empty-element tag.
pub fn text_of(text: &[u8], n: usize) -> &[u8]
    ensures { result.now ≡ (head_at text.now n).text }
{
    let span = text_at(text, n);
    slices::part(text, span.from, span.len)
}

// Whether a text is white space alone.
pub fn is_blank(raw: &[u8]) -> bool
    ensures { result ≡ slices.every is_space raw.now }
{
    raw.iter().all(|b| scan::is_space(*b))
}

// Where the row of its children begins.
pub fn first_child(text: &[u8], n: usize) -> usize
    ensures { ChildrenFrom text.now n result }
{
    let a = scan::inside(text, n);
    if scan::tag_end(text, a).empty {
        text.len()
    } else {
        a
    }
}

// Whether it has children.
pub fn has_children(text: &[u8], n: usize) -> bool
    ensures { result ≡ has_element (children_at text.now n) }
{
    matches!(
        tags::next_tag(text, first_child(text, n)),
        Tag::Open(_) | Tag::Empty(_)
    )
}
