// The network that follows a place in the list of a trie in words: what next, the rows of networks and the walk stand on. Each function asks in its
// contract that a trie stands where it is to read one, and checks no pool: the calls without such a wish stand in the crates above.
pub mod following;
