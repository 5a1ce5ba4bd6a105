// The functions that C calls. Each answers a refusal's number, or 0, and writes numbers to its outputs, zeros where refused. C's parameters
// are what they are: a length or a letter is passed by itself, and functions of one shape are not one generic function.
#![tactic(auto)]

pub mod ansi_tapes;
pub mod files;
pub mod indexes;
pub mod labelling;
pub mod names;
mod outputs;
pub mod partitions;
pub mod volumes;
