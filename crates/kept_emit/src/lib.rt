// A set operation on two tries in the second form, written where there is room for it apart from both.
#![tactic(auto)]

pub mod combining;
pub mod emitting;
