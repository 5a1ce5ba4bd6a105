// The values of an index's elements (01, Index, Values, Extents): found in a row by name, tested by themselves, and a file's extents as rows.
#![tactic(auto)]

mod rows;
mod tests;
mod uids;

pub use rows::{number_said, row_in, span_in, text_in};
pub use tests::{
    Judged, Partitions, is_own, is_valued, judge, letter_said, number_named, number_placed,
};
pub use uids::unique;
