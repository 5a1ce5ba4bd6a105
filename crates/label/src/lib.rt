// The LTFS label of a partition (01, LTFS label): read, and the labels of two partitions compared.
#![tactic(auto)]

mod agreement;
mod reader;

pub use agreement::labels_agree;
pub use reader::{LabelFields, letters_fit, read};
