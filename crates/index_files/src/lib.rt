// The files of an index's text and their rows (01, Index and Extents), one after the other and by their numbers; and all of an index at once.
#![tactic(auto)]

mod asked;
mod extent_rows;
mod files;
mod filling;
mod whole;

pub use asked::{FileHead, file, rows};
pub use extent_rows::{EachRow, NextRow, Row, first_row, next_row};
pub use files::{EachFile, next_file};
pub use whole::read_whole;
