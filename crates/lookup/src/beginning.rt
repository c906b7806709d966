// Where the path of a query begins in the first form: at the root, or in an indexed set, for a query of eight bits or more, at their word of the index.
ghost use Rattle.std.specs.Prelude.{true, ◌≡◌, ◌-◌, ◌≤◌, ◌<◌, get_or};
ghost use Rattle.nets.specs.Networks.{bits_left};
ghost use Rattle.pool_state.specs.Kept.{first};
ghost use Rattle.pool_state.specs.Decode.{record_at, base, least_words, is_header};
ghost use Rattle.lookup.specs.Rules.{from_root, from_index, path_of};

use nets::{PrefixBits, Refusal};
use pool_header::{HEAD, INDEXED, NODES, RECORD, SETS, TAG, least_words};
use trie_lookup::standing::{head, stand_on};
use trie_lookup::{Shown, walk_from};

// Where the nodes of the pool begin, how many there are, and the root of a set.
#[derive(Clone, Copy)]
pub struct Ground {
    pub b: usize,
    pub n: u32,
    pub root: u32,
}

pub fn grounds(w: &[u32], set: u32) -> Ground
    requires { (is_header w.now ≡ true) × (set < get_or w.now 2 0) }
    ensures { (result.b ≡ base (get_or w.now 2 0)) × (result.n ≡ get_or w.now 3 0) × (result.root ≡ get_or w.now (record_at set) 0) }
{
    Ground {
        b: HEAD + RECORD * (w[SETS] as usize),
        n: w[NODES],
        root: w[HEAD + RECORD * (set as usize)],
    }
}

// What the path of these bits shows in a set from the root on.
fn from_root(w: &[u32], set: u32, bits: PrefixBits) -> Shown
    requires { (is_header w.now ≡ true) × (set < get_or w.now 2 0) × (bits.len ≤ 128) }
    ensures { result ≡ from_root w.now set (bits_left bits) }
{
    let g = grounds(w, set);
    walk_from(w, g.b, g.n, g.root, bits)
}

// What it shows from the word of the index on.
fn from_index(w: &[u32], set: u32, tag: u32, bits: PrefixBits) -> Shown
    requires { (is_header w.now ≡ true) × (set < get_or w.now 2 0) × (8 ≤ bits.len) × (bits.len ≤ 128) × (1 ≤ tag) × (tag ≤ get_or w.now 4 0) }
    ensures { result ≡ from_index w.now set (least_words (get_or w.now 2 0) (get_or w.now 3 0) (tag - 1)) (bits_left bits) }
{
    let g = grounds(w, set);
    let h = head(bits);
    let at = least_words(w[SETS], g.n, tag - 1) + h.byte;
    stand_on(w, g.b, g.n, g.root, w[at], bits.len, h.rest)
}

// What the path of these bits shows in a set.
pub fn path(w: &[u32], set: u32, bits: PrefixBits) -> Shown
    requires { (is_header w.now ≡ true) × (set < get_or w.now 2 0) × (bits.len ≤ 128) }
    ensures { result ≡ path_of first w.now set (bits_left bits) }
{
    let tag = w[HEAD + RECORD * (set as usize) + TAG];
    if tag == 0 {
        return from_root(w, set, bits);
    }
    if bits.len < 8 {
        return from_root(w, set, bits);
    }
    if w[INDEXED] < tag {
        return Shown::Refused(Refusal::Damaged);
    }
    from_index(w, set, tag, bits)
}
