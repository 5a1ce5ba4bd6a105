// Reading an index's text (01, Index): one walk over its elements gathers what the refusals ask.
#![tactic(auto)]

mod read;
mod survey;
mod walk;

pub use read::{Header, Location, is_caller_right, read_index, read_into};
