// The ranges of a trie in words, as rows of four numbers: the words of the first address and of the last. Each function asks in its contract that a trie
// stands where it is to read one.
pub mod rows;

// How many ranges were opened, and the address that would go on from the last of them; zero where there is none, as `after` answers it behind the last address:
// an Option would be made from that zero at each member, and is no plainer.
#[derive(Clone, Copy)]
pub struct Open {
    pub n: usize,
    pub hi: u64,
    pub lo: u64,
}
