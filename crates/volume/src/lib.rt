// A volume of two partitions: its verdict, and the rescue's cut (01, Constructs, verdict and cut).
#![tactic(auto)]

mod answers;
mod chains;
mod chosen;
mod filled;
mod filling;
mod judge;
mod lost;
mod search;
mod sound;

pub use answers::{find_break, find_cut};
pub use chosen::{FoundIndex, read_construct};
pub use judge::Break;
pub use search::FoundCut;
