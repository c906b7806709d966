// How far one has come who goes through a set: what the rows of networks and the walk stand on. Going on asks in its contract that a trie stands where
// it is to read one.
pub mod spots;
