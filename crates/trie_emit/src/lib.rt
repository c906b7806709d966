// Writing the trie that a call makes of tries in the same words, lazily: a single leaf is not written until it is known to stay one.
#![tactic(auto)]

pub mod combining;
pub mod emitting;
pub mod joining;
