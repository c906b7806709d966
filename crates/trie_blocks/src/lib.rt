// A trie in words by its parts: one in which nothing joins is moved as a block.
#![tactic(auto)]

pub mod joining;
pub mod simplifying;
