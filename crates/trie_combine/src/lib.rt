// A set operation on two tries in the words by where they begin and end: only the nodes that both have are gone down to, and the parts that one alone has are moved as blocks.
#![tactic(auto)]

pub mod combining;
pub mod counting;
