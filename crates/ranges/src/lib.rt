// Ranges of addresses: what they are, and the ranges of a list, stand in specs; here is the arithmetic of their ends. No pool is needed.
#![tactic(auto)]

pub mod addresses;
