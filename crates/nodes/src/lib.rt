// Tries in words: reading one, moving and linking its nodes, stepping down in the middle of the used words. Each function asks in its contract what makes it safe:
// the calls without such a wish stand in the crates above.
#![tactic(auto)]

pub mod reading;
pub mod seats;
pub mod steps;
pub mod writing;
