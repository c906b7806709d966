// The list of a trie in words: its networks counted by their lengths, and laid as rows of numbers. Each function asks in its contract that a trie stands where it is to read one.
pub mod lengths;
pub mod rows;
