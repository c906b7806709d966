// Networks in address order, in which what lies inside a network follows it at once. No pool and no file is needed here.
#![tactic(auto)]

pub mod sharing;
