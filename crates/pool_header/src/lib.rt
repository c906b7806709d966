// The header of a pool: how large one may be, the words it takes, and whether the first words are those of a pool. All that a lookup asks of the whole.
ghost use Rattle.std.specs.Prelude.{◌≡◌, suc, ◌≤◌, length};
ghost use Rattle.nets.specs.Networks.{width};
ghost use Rattle.pool_state.specs.States.{is_size};
ghost use Rattle.pool_state.specs.Decode.{least_words, is_form, is_header};
ghost use Rattle.pool_state.specs.Steps.{stride_in};

use nets::families::is_family;
use trie_index::INDEX;

// The first word of every pool.
pub const MARK: u32 = 1296126540;

// The words before the records, those of a record, and those that a pool has for each node.
pub const HEAD: usize = 64;

pub const RECORD: usize = 8;

pub const NODE: usize = 8;

// The words of the header, by their places: the family, how many sets and nodes there are, how many sets are indexed, and the form.
pub const FAMILY: usize = 1;

pub const SETS: usize = 2;

pub const NODES: usize = 3;

pub const INDEXED: usize = 4;

pub const FORM: usize = 5;

// The words of a record behind its first, which is the root: the share, the limit, whether the set is public-only, and the tag of its index.
pub const SHARE: usize = 1;

pub const LIMIT: usize = 2;

pub const PUBLIC: usize = 3;

pub const TAG: usize = 4;

const MOST_SETS: u32 = 64;

const MOST_NODES: u32 = 4194304;

// How many sets and nodes a pool may have.
pub fn is_size(sets: u32, nodes: u32) -> bool
    ensures { result ≡ is_size sets nodes }
{
    if sets < 1 {
        return false;
    }
    if MOST_SETS < sets {
        return false;
    }
    if nodes < 1 {
        return false;
    }
    nodes <= MOST_NODES
}

// The words of the smallest buffer. The sum cannot wrap, whatever the counts are.
pub fn least_words(sets: u32, nodes: u32, indexed: u32) -> usize
    ensures { result ≡ least_words sets nodes indexed }
{
    HEAD + RECORD * (sets as usize) + NODE * (nodes as usize) + INDEX * (indexed as usize)
}

// The word of a form.
pub fn is_form(x: u32) -> bool
    ensures { result ≡ is_form x }
{
    x <= 1
}

// The first six words are those of a pool, and the slice is long enough for it.
pub fn is_header(w: &[u32]) -> bool
    ensures { result ≡ is_header w.now }
{
    if w.len() < HEAD {
        return false;
    }
    if w[0] != MARK {
        return false;
    }
    if !is_family(w[FAMILY]) {
        return false;
    }
    if !is_form(w[FORM]) {
        return false;
    }
    let sets = w[SETS];
    let nodes = w[NODES];
    if !is_size(sets, nodes) {
        return false;
    }
    let indexed = w[INDEXED];
    if sets < indexed {
        return false;
    }
    least_words(sets, nodes, indexed) <= w.len()
}

// How many words a node takes, by the pool's form and family.
pub fn stride_of(w: &[u32]) -> usize
    requires { 64 ≤ length w.now }
    ensures { result ≡ stride_in w.now }
{
    if w[FORM] == 0 {
        return 1;
    }
    if w[FAMILY] == 4 {
        return 2;
    }
    5
}

// The levels that a trie of the family may have: one more than the bits of an address.
pub fn most_levels(family: u32) -> u32
    ensures { result ≡ suc (width family) }
{
    if family == 4 {
        return 33;
    }
    129
}
