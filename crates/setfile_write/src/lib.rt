// The file of a trie in words, as bytes. Each function asks in its contract what makes it safe.
pub mod saving;
