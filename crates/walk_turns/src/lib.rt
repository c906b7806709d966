// What is told of a place of a list: no walk, and no pool.
#![tactic(auto)]

pub mod turns;
