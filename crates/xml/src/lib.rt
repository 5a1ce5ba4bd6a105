// The XML form (01, The XML form): whether a text is in it, and if not, where it leaves the form (02, Item 6).
#![tactic(auto)]

ghost use Rattle.std.specs.Prelude.{◌≡◌, ◌&&◌, [], ◌∷◌, ◌≤◌, ltb, length};
ghost use Rattle.refusals.specs.Refusals.{left_at};
ghost use Rattle.refusals.specs.declared.Refusal.TheVariants.{Form};
ghost use Rattle.xml.specs.CheckSteps.{at, before, after, content, blank, form_checked};
ghost use Rattle.xml.specs.ScanSteps.{OpensTurn, Reaches, NextTurn, Ends};

mod bytes;
mod characters;
mod tags;

use bytes::{byte, past_spaces, word_end};
use characters::text_end;
use refusals::{Place, Refusal};
use tags::{end_tag, inner_tag, start_tag};

// A text is not in the form.
#[derive(Clone, Copy, PartialEq, Eq, Debug)]
pub struct FormError {
    // How long its longest front is that some text in the form begins with.
    pub front: usize,
}

impl From<FormError> for Refusal {
    ghost from_gives = { λ e r. r ≡ Form (left_at e.front) };

    fn from(error: FormError) -> Refusal {
        Refusal::Form(Place {
            front: error.front,
            on_data: false,
        })
    }
}

// The next tag of an element: an element opens, which has this name; an empty element stands inside; the element ends.
#[derive(Clone, Copy)]
enum Turn<'a> {
    Opened(&'a [u8]),
    Inside,
    Outside,
}

// A tag from behind its `<` on, in the element with this name, and the position behind it; an element may begin here or not.
fn read_tag<'a>(
    text: &'a [u8],
    from: usize,
    begins: bool,
    name: &[u8],
) -> Result<(Turn<'a>, usize), FormError>
    requires { from ≤ length text.now }
    ensures { OpensTurn text.now from name.now begins result }
{
    if byte(text, from) == b'/' {
        let j = end_tag(text, from + 1, name)?;
        return Ok((Turn::Outside, j));
    }
    if !begins {
        return Err(FormError { front: from });
    }
    match inner_tag(text, from)? {
        (Some(opened), j) => Ok((Turn::Opened(opened), j)),
        (None, j) => Ok((Turn::Inside, j)),
    }
}

// The content of an element up to its next `<`: the position behind that, and whether there is no text before it, so that an element may begin. The
// element has children already or not.
fn next_markup(text: &[u8], from: usize, children: bool) -> Result<(bool, usize), FormError>
    requires { from ≤ length text.now }
    ensures { Reaches text.now from children result }
{
    let i = past_spaces(text, from);
    if byte(text, i) == b'<' {
        return Ok((true, i + 1));
    }
    if children {
        return Err(FormError { front: i });
    }
    let j = text_end(text, i)?;
    Ok((false, j))
}

// The content of the element at this depth with this name, up to the end of its next tag; it has children already or not. There is one call of
// `read_tag`, so that the compiler inlines it.
fn next_tag<'a>(
    text: &'a [u8],
    from: usize,
    children: bool,
    depth: usize,
    name: &[u8],
) -> Result<(Turn<'a>, usize), FormError>
    requires { from ≤ length text.now }
    ensures { NextTurn text.now from name.now children depth result }
{
    let (alone, j) = next_markup(text, from, children)?;
    let begins = alone && depth < 64;
    read_tag(text, j, begins, name)
}

// White space after the root element.
fn finish(text: &[u8], from: usize) -> Result<(), FormError>
    requires { from ≤ length text.now }
    ensures { Ends text.now from (at after []) result }
{
    let i = past_spaces(text, from);
    if i == text.len() {
        Ok(())
    } else {
        Err(FormError { front: i })
    }
}

// The content of the root element, which has this name, and what follows it. At the text's end `next_tag` answers an error. A loop, since each tag says
// where the next one is looked for.
fn elements<'a>(text: &'a [u8], from: usize, name: &'a [u8]) -> Result<(), FormError>
    requires { from ≤ length text.now }
    ensures { Ends text.now from (at (content blank) (name.now ∷ [])) result }
{
    let mut names = [name; 64];
    let mut depth: usize = 1;
    let mut i = from;
    let mut children = false;
    loop {
        let (turn, j) = next_tag(text, i, children, depth, names[depth - 1])?;
        i = j;
        match turn {
            Turn::Opened(opened) => {
                names[depth] = opened;
                depth += 1;
                children = false;
            }
            Turn::Inside => children = true,
            Turn::Outside => {
                if depth == 1 {
                    return finish(text, j);
                }
                depth -= 1;
                children = true;
            }
        }
    }
}

// What follows the declaration.
fn root(text: &[u8], from: usize) -> Result<(), FormError>
    requires { from ≤ length text.now }
    ensures { Ends text.now from (at before []) result }
{
    let begin = past_spaces(text, from);
    if byte(text, begin) != b'<' {
        return Err(FormError { front: begin });
    }
    match start_tag(text, begin + 1)? {
        (Some(name), j) => elements(text, j, name),
        (None, j) => finish(text, j),
    }
}

// Whether the text is in the form.
pub fn check(text: &[u8]) -> Result<(), FormError>
    ensures { result ≡ form_checked text.now }
{
    let i = word_end(text, 0, b"<?xml version=\"1.0\" encoding=\"UTF-8\"?>")?;
    root(text, i)
}
