// The networks on the way through a trie: those of its paths, and of the second children still to come. Each function asks in its contract what makes it safe.
pub mod halves;
pub mod preorder;
