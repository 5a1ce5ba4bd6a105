// What stands in a row of elements, found by name.
ghost use Rattle.std.specs.Prelude.{◌≡◌, ◌-◌, length};
ghost use Rattle.std.specs.Iterator.{at_most};
ghost use Rattle.elements.specs.Reading.{forest_at, children_at};
ghost use Rattle.elements.specs.StartSteps.{Shape};
ghost use Rattle.index_values.specs.Elements.{text_in, children_in};
ghost use Rattle.index_values.specs.Entries.{number_or_zero};
ghost use Rattle.index_values.specs.Steps.{Finds, TextFound};
ghost use Rattle.index_values.specs.EachStart.{GivesStart};

use elements::{Span, Start};

// The elements of a row, one after the other, as their start tags show them.
#[derive(Drop)]
struct EachStart<'a> {
    text: &'a [u8],
    at: usize,
}

impl<'a> Iterator for EachStart<'a> {
    type Item = Start;

    ghost next_gives = { GivesStart };

    ghost remaining = { λ s. at_most (length s.text.now - s.at) };

    fn next(&mut self) -> Option<Start> {
        let item = elements::next_item(self.text, self.at)?;
        self.at = item.next;
        Some(item.start)
    }
}

// The first element of a name in the row at at.
fn find(text: &[u8], at: usize, name: &[u8]) -> Option<Start>
    ensures { Finds text.now at name.now result }
{
    EachStart { text, at }.find(|start| elements::part(text, start.name) == name)
}

// Where the text of the first element of a name in the row at at stands.
pub fn span_in(text: &[u8], at: usize, name: &[u8]) -> Span
    ensures { TextFound text.now at name.now result }
{
    match find(text, at, name) {
        Some(start) => start.text,
        None => Span { from: 0, len: 0 },
    }
}

// That text.
pub fn text_in<'a>(text: &'a [u8], at: usize, name: &[u8]) -> &'a [u8]
    ensures { result.now ≡ text_in name.now (forest_at text.now at) }
{
    elements::part(text, span_in(text, at, name))
}

// Where the row of an element's children begins.
fn children_row(text: &[u8], h: Start) -> usize
    requires { Shape text.now h }
    ensures { forest_at text.now result ≡ children_at text.now h.at }
{
    if h.empty { text.len() } else { h.at }
}

// Where the row of the first element of a name in the row at at begins.
pub fn row_in(text: &[u8], at: usize, name: &[u8]) -> usize
    ensures { forest_at text.now result ≡ children_in name.now (forest_at text.now at) }
{
    match find(text, at, name) {
        Some(start) => children_row(text, start),
        None => text.len(),
    }
}

// The number that a text says, 0 where it says none.
pub fn number_said(raw: &[u8]) -> u64
    ensures { result ≡ number_or_zero raw.now }
{
    values::read_number(raw).unwrap_or(0)
}
