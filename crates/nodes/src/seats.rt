// Where a trie stands: the nodes from the word `base` on, the trie from node `first` up to node `end`; its networks are of the family.
#[derive(Clone, Copy)]
pub struct Seat {
    pub family: u8,
    pub base: usize,
    pub first: usize,
    pub end: usize,
}
