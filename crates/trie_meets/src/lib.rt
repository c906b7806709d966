// Whether a trie in the words, or what a set operation makes of two of them, overlaps the inner networks: by walking down to each of these, with nothing
// built or listed.
#![tactic(auto)]

pub mod combined;
pub mod standing;
