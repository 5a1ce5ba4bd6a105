// Start tags, each looked at once with what follows it up to the next tag.
ghost use Rattle.std.specs.Prelude.{◌≡◌, ◌<◌, length, get_or};
ghost use Rattle.xml.specs.Bytes.{is_name_byte};
ghost use Rattle.xml.specs.ScanSteps.{Past};
ghost use Rattle.elements.specs.Reading.{part_at};
ghost use Rattle.elements.specs.StartSteps.{GoesOnAt, Opening, NextStart, NextItem};

use crate::heads::Span;
use crate::{heads, scan, tags};

// An element as its start tag shows it: the tag's place; its name; whether it has no attribute; whether its tag is an empty-element tag; its
// text; whether it has no children, and if so where its row goes on.
#[derive(Clone, Copy, Debug, PartialEq, Eq)]
pub struct Start {
    pub at: usize,
    pub name: Span,
    pub plain: bool,
    pub empty: bool,
    pub text: Span,
    pub leaf: bool,
    pub next: usize,
}

// The end of the text, an end tag with the place behind its `<`, or an element.
#[derive(Clone, Copy, Debug, PartialEq, Eq)]
pub enum Next {
    End,
    Close(usize),
    Opens(Start),
}

// An element of a row as its start tag shows it, and where the row goes on.
#[derive(Clone, Copy, Debug, PartialEq, Eq)]
pub struct Item {
    pub start: Start,
    pub next: usize,
}

// That part of a text, as far as it lies there.
pub fn part(text: &[u8], span: Span) -> &[u8]
    ensures { result.now ≡ part_at text.now span }
{
    slices::part(text, span.from, span.len)
}

// The element whose tag is at n, where `>` follows its name, which ends at e.
fn plain_start(text: &[u8], n: usize, e: usize) -> Start
    requires { Past is_name_byte text.now n e × (e < length text.now) × (get_or text.now e 0 ≡ 62) }
    ensures { Opening text.now n result }
{
    let from = e + 1;
    let end = scan::find(text, from, b'<');
    let (leaf, next) = if end < text.len() {
        (scan::byte(text, end + 1) == b'/', end + 1)
    } else {
        (true, text.len())
    };
    Start {
        at: n,
        name: Span {
            from: n,
            len: e - n,
        },
        plain: true,
        empty: false,
        text: Span {
            from,
            len: end - from,
        },
        leaf,
        next,
    }
}

// Where the row of the element whose tag is at n goes on, if it has no children; else its own place.
fn next_of(text: &[u8], n: usize, empty: bool, leaf: bool) -> usize
    ensures { GoesOnAt text.now n empty leaf result }
{
    if leaf && !empty {
        tags::leave(text, n)
    } else {
        n
    }
}

// The element whose tag is at n, of any form; its name ends at e.
fn other_start(text: &[u8], n: usize, e: usize) -> Start
    requires { Past is_name_byte text.now n e }
    ensures { Opening text.now n result }
{
    let tag = scan::tag_end(text, n);
    let plain = heads::key_of(text, n).len() == 0;
    let said = heads::text_at(text, n);
    let leaf = !heads::has_children(text, n);
    let next = next_of(text, n, tag.empty, leaf);
    Start {
        at: n,
        name: Span {
            from: n,
            len: e - n,
        },
        plain,
        empty: tag.empty,
        text: said,
        leaf,
        next,
    }
}

// What comes next from at on. Most start tags have a name of small letters alone.
pub fn next_start(text: &[u8], at: usize) -> Next
    ensures { NextStart text.now at result }
{
    if text.len() <= at {
        return Next::End;
    }
    let j = scan::find(text, at, b'<');
    if text.len() <= j {
        return Next::End;
    }
    let n = j + 1;
    if scan::byte(text, n) == b'/' {
        return Next::Close(n);
    }
    let e = scan::letters_end(text, n);
    if e < text.len() && text[e] == b'>' {
        return Next::Opens(plain_start(text, n, e));
    }
    Next::Opens(other_start(text, n, scan::name_end(text, n)))
}

// The next element of the row at at.
pub fn next_item(text: &[u8], at: usize) -> Option<Item>
    ensures { NextItem text.now at result }
{
    match next_start(text, at) {
        Next::End | Next::Close(_) => None,
        Next::Opens(start) => {
            let next = if start.leaf {
                start.next
            } else {
                tags::leave(text, start.at)
            };
            Some(Item { start, next })
        }
    }
}
