// What the programs share of networks coming in: lines from an open file into a set. What is read no contract can say: each function is proved safe and ending.
#![tactic(auto)]

mod reading;

pub use crate::reading::{Lines, LinesError, read_lines};
