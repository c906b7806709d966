// Whether a trie in the second form, or what a set operation makes of two of them, overlaps the inner networks: by walking down to each of these, with nothing
// built or listed, as trie_meets does it in the first form.
#![tactic(auto)]

pub mod combined;
pub mod standing;
