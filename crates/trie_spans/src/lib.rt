// A trie in the words by where it begins and ends: its kind, its end, the trie written elsewhere as it stands or simplified, and a node written over its halves.
#![tactic(auto)]

pub mod answering;
pub mod extents;
pub mod spreading;
