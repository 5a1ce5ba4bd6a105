// From tag to tag, and from element to element.
ghost use Rattle.elements.specs.TagSteps.{NextTag, Behind, NextChild};

use crate::scan;

// A tag, with the place behind its `<`: an end tag, a start tag, an empty-element tag; or the end of the text.
#[derive(Clone, Copy, Debug, PartialEq, Eq)]
pub enum Tag {
    End,
    Close(usize),
    Open(usize),
    Empty(usize),
}

// An element of a row: the place of its tag, and where the row goes on.
#[derive(Clone, Copy, Debug, PartialEq, Eq)]
pub struct Child {
    pub at: usize,
    pub next: usize,
}

// The next tag from at on. Reading goes on at its place.
pub fn next_tag(text: &[u8], at: usize) -> Tag
    ensures { NextTag text.now at result }
{
    if text.len() <= at {
        return Tag::End;
    }
    let j = scan::find(text, at, b'<');
    if text.len() <= j {
        return Tag::End;
    }
    let n = j + 1;
    if scan::byte(text, n) == b'/' {
        return Tag::Close(n);
    }
    if scan::tag_end(text, n).empty {
        Tag::Empty(n)
    } else {
        Tag::Open(n)
    }
}

// Where reading goes on behind the element that is open at at; from the place of a start tag, past that element whole.
pub fn leave(text: &[u8], at: usize) -> usize
    ensures { Behind text.now at result }
{
    let mut i = scan::inside(text, at);
    let mut d: usize = 0;
    // A loop, since it ends in two ways, at the text's end and at an end tag.
    loop {
        match next_tag(text, i) {
            Tag::End => {
                return text.len();
            }
            Tag::Close(n) => {
                if d == 0 {
                    return n;
                }
                d -= 1;
                i = n;
            }
            Tag::Open(n) => {
                d += 1;
                i = n;
            }
            Tag::Empty(n) => {
                i = n;
            }
        }
    }
}

// The next element of the row at at.
pub fn next_child(text: &[u8], at: usize) -> Option<Child>
    ensures { NextChild text.now at result }
{
    match next_tag(text, at) {
        Tag::End | Tag::Close(_) => None,
        Tag::Open(n) => Some(Child {
            at: n,
            next: leave(text, n),
        }),
        Tag::Empty(n) => Some(Child { at: n, next: n }),
    }
}
