// What pouring the networks of a set file into a trie of the second form, or out of it, leaves of the trie, in place: marked in one pass beside the file's
// stream, in address order, then moved to the low end in one pass over the nodes.
pub mod cutting;
mod marks;
