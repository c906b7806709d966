// What the programs share of networks going out: a set as lines. What is written no contract can say: each function is proved safe and ending.
#![tactic(auto)]

mod printing;

pub use crate::printing::print_set;
