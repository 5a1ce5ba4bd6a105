// The elements of a text (01, The XML form), read tag by tag. Nothing here asks that a text is in the form: a place may lie anywhere, and
// each answer is what the definitions read off the bytes there.
#![tactic(auto)]

mod heads;
mod scan;
mod starts;
mod tags;

pub use heads::{
    Span, first_child, has_children, is_blank, key_of, name_is, name_of, text_at, text_of, value_of,
};
pub use scan::is_space;
pub use starts::{Item, Next, Start, next_item, next_start, part};
pub use tags::{Child, Tag, leave, next_child, next_tag};
