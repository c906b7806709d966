// The networks of a set file into a trie in words, or out of it, in one pass beside the file's stream, and in place.
pub mod counting;
pub mod cutting;
pub mod filling;
