// The room of the programs on set files: a pool of one set, as large as its words on the stack may well be.

pub const NODES: u32 = 100000;

// The words of the pool.
pub const WORDS: usize = 800072;

// The bytes of the largest file: a trie of so many nodes has at most half as many leaves, of 17 bytes each in IPv6; and 16 of the header.
pub const BYTES: usize = 850016;

// As many networks, three numbers each.
pub const ROWS: usize = 150000;
