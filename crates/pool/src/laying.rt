// The parts of layout: the rules of a setup, the cleared buffer, the header, the records of empty sets, their tags and indexes.
ghost use Rattle.std.specs.Prelude.{◌≡◌, cond, [], ◌∷◌, ◌+◌, ◌*◌, ◌≤◌, ◌<◌, length, replicate};
ghost use Rattle.nodes.specs.Words.{put};
ghost use Rattle.nets.specs.Bits.{digit};
ghost use Rattle.pool_state.specs.Kept.{first, index_l};
ghost use Rattle.pool_state.specs.Decode.{mark, record_at, base, over_records, tag_of, over_indexes};
ghost use Rattle.pool_state.specs.Rules.{shares_fit, setup, marks_fit, marks, is_formed, is_setup, empty_sets, blanks};

use nets::families::is_family;
use pool_header::{
    FAMILY, FORM, HEAD, INDEXED, LIMIT, MARK, NODES, PUBLIC, RECORD, SETS, SHARE, TAG, is_form,
    is_size, least_words,
};
use trie_index::{INDEX, write_index};

// How many of the first sets the bits of a number mark.
pub fn count_marks(sets: u32, indexed: u64) -> u32
    ensures { result ≡ marks sets indexed }
{
    let mut x = indexed;
    let mut n: u32 = 0;
    for _ in 0..sets {
        n += (x % 2) as u32;
        x /= 2;
    }
    n
}

// The bits of a number mark no other than the first sets.
fn marks_fit(sets: u32, indexed: u64) -> bool
    ensures { result ≡ marks_fit sets indexed }
{
    let mut x = indexed;
    for _ in 0..sets {
        x /= 2;
    }
    x == 0
}

// Each set has a share and a limit, each share is at most its limit, and the shares add up to at most the nodes. The nodes that the shares leave are counted down, so no sum can wrap.
pub fn shares_fit(sets: u32, nodes: u32, shares: &[u32], limits: &[u32]) -> bool
    ensures { result ≡ shares_fit sets nodes shares.now limits.now }
{
    let n = sets as usize;
    if shares.len() != n {
        return false;
    }
    if limits.len() != n {
        return false;
    }
    let mut left = nodes;
    for s in 0..n {
        let share = shares[s];
        if limits[s] < share {
            return false;
        }
        if left < share {
            return false;
        }
        left -= share;
    }
    true
}

// It is a form, and no set is to be indexed in the second.
fn is_formed(form: u32, indexed: u64) -> bool
    ensures { result ≡ is_formed form indexed }
{
    if !is_form(form) {
        return false;
    }
    if form == 0 {
        return true;
    }
    indexed == 0
}

// The setup keeps the rules, and so many words are enough for it.
pub fn is_setup(
    words: usize,
    family: u8,
    form: u32,
    sets: u32,
    nodes: u32,
    shares: &[u32],
    limits: &[u32],
    indexed: u64,
) -> bool
    ensures { result ≡ is_setup words (setup family form sets nodes shares.now limits.now indexed) }
{
    is_family(family as u32)
        && is_formed(form, indexed)
        && is_size(sets, nodes)
        && marks_fit(sets, indexed)
        && least_words(sets, nodes, count_marks(sets, indexed)) <= words
        && shares_fit(sets, nodes, shares, limits)
}

// Zeros in the first n words.
pub fn clear(pool: &mut [u32], n: usize)
    requires { n ≤ length pool.old }
    ensures { pool.new ≡ put pool.old 0 (replicate n 0) }
{
    pool[..n].fill(0);
}

pub fn header(pool: &mut [u32], family: u8, form: u32, sets: u32, nodes: u32)
    requires { 6 ≤ length pool.old }
    ensures { pool.new ≡ put (put pool.old 0 (mark ∷ family ∷ sets ∷ nodes ∷ [])) 5 (form ∷ []) }
{
    pool[0] = MARK;
    pool[FAMILY] = family as u32;
    pool[SETS] = sets;
    pool[NODES] = nodes;
    pool[FORM] = form;
}

// The records of empty sets with these shares and limits.
pub fn records(pool: &mut [u32], shares: &[u32], limits: &[u32])
    requires shares_len { length shares.now ≡ length limits.now }
    requires shares_in_bounds { base (length shares.now) ≤ length pool.old }
    ensures { pool.new ≡ over_records pool.old 0 1 (empty_sets first shares.now limits.now 0) }
{
    for s in 0..shares.len() {
        let at = HEAD + RECORD * s;
        pool[at] = 0;
        pool[at + SHARE] = shares[s];
        pool[at + LIMIT] = limits[s];
        pool[at + PUBLIC] = 0;
    }
}

// The tag of an empty set, with j indexed sets before it, and its index, where it is marked; the indexes stand from `at` on. Answers how many indexed sets there are then.
fn index_empty(pool: &mut [u32], at: usize, s: usize, j: u32, marked: bool) -> u32
    requires { (s < 64) × (j ≤ s) × (record_at (s + 1) ≤ at) × (at < 4294967296) × (at + 256 * (j + digit marked) ≤ length pool.old) }
    ensures { (result ≡ j + digit marked) × (pool.new ≡ put (put pool.old (record_at s + 4) (tag_of marked j ∷ [])) (at + 256 * j) (cond marked (index_l []) [])) }
{
    if marked {
        pool[HEAD + RECORD * s + TAG] = j + 1;
        write_index(pool, HEAD, 0, 0, at + INDEX * (j as usize));
        return j + 1;
    }
    pool[HEAD + RECORD * s + TAG] = 0;
    j
}

// The tags and the indexes of empty sets, of which the bits of a number mark those that are indexed, and how many these are.
pub fn indexes(pool: &mut [u32], at: usize, sets: u32, indexed: u64)
    requires { (sets ≤ 64) × (record_at sets ≤ at) × (at < 4294967296) × (at + 256 * marks sets indexed ≤ length pool.old) }
    ensures { pool.new ≡ over_indexes pool.old at 0 0 (blanks sets indexed) }
{
    let n = sets as usize;
    let mut j: u32 = 0;
    let mut x = indexed;
    for s in 0..n {
        j = index_empty(pool, at, s, j, x % 2 == 1);
        x /= 2;
    }
    pool[INDEXED] = j;
}
