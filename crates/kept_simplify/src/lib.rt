// Simplifying a trie of the second form where it stands.
#![tactic(auto)]

mod joining;
pub mod simplifying;
