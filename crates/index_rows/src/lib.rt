// A row of an index's elements read once: where the first element of each name stands.
#![tactic(auto)]

ghost use Rattle.std.specs.Prelude.{◌≡◌, ◌≤◌, length};
ghost use Rattle.elements.specs.Reading.{forest_at, part_at, Inside};
ghost use Rattle.elements.specs.TagSteps.{Behind};
ghost use Rattle.children.specs.Children.{text_of_first, children_of_first};
ghost use Rattle.children.specs.RowSteps.{seat};
ghost use Rattle.index_rows.specs.Steps.{noted, Placed, TextSeated};

use elements::{Next, Span};
use index_names::Sort;

// A part of a text that lies in it, so that nothing is tested for each element.
pub fn lying(text: &[u8], span: Span) -> &[u8]
    requires { Inside text.now span.from span.len }
    ensures { result.now ≡ part_at text.now span }
{
    &text[span.from..span.from + span.len]
}

// Where the first element of each number stands, 0 where there is none, and where reading goes on behind the row. No element stands at 0, where a text's
// declaration is; an Option would take twice the room for each number.
#[derive(Clone, Copy, PartialEq, Eq, Debug)]
pub struct RowPlaces {
    pub places: [usize; 16],
    pub at: usize,
}

// The element of number j stands at at, if none of that number came before.
#[tactic(auto, using(std::proofs::lemmas::Bool::Decides::nat_tests), unfolding(crate::specs::Steps::noted))]
pub fn note(places: &mut [usize; 16], j: usize, at: usize)
    ensures { places.new ≡ noted j at places.old }
{
    if j < 16 && places[j] == 0 {
        places[j] = at;
    }
}

// The row at at, in an element of a kind.
pub fn read_row(text: &[u8], at: usize, kind: Sort) -> RowPlaces
    ensures { Placed text.now kind (forest_at text.now at) result.places × Behind text.now at result.at }
{
    let mut i = at;
    let mut places = [0usize; 16];
    // A loop, since it ends in two ways, at the text's end and at an end tag.
    loop {
        match elements::next_start(text, i) {
            Next::End => {
                return RowPlaces {
                    places,
                    at: text.len(),
                };
            }
            Next::Close(n) => {
                return RowPlaces { places, at: n };
            }
            Next::Opens(h) => {
                let j = index_names::number_in(kind, lying(text, h.name));
                note(&mut places, j, h.at);
                i = if h.leaf {
                    h.next
                } else {
                    elements::leave(text, h.at)
                };
            }
        }
    }
}

// Where the text of the element at a place stands.
pub fn span_at(text: &[u8], n: usize) -> Span
    ensures { TextSeated text.now n result }
{
    if n == 0 {
        Span { from: 0, len: 0 }
    } else {
        elements::text_at(text, n)
    }
}

// The text of the element at a place, empty for the place 0.
pub fn text_at(text: &[u8], n: usize) -> &[u8]
    ensures { result.now ≡ text_of_first (seat text.now n) }
{
    if n == 0 {
        &[]
    } else {
        elements::text_of(text, n)
    }
}

// Where the row of its children begins.
pub fn row_at(text: &[u8], n: usize) -> usize
    ensures { (forest_at text.now result ≡ children_of_first (seat text.now n)) × (result ≤ length text.now) }
{
    if n == 0 {
        text.len()
    } else {
        elements::first_child(text, n)
    }
}
