// A trie by where it begins and ends: where it ends, and its kind.
ghost use Rattle.std.specs.Prelude.{◌≡◌, ℕ, ◌+◌, ◌<◌};
ghost use Rattle.nets.specs.Tries.{Trie, size};
ghost use Rattle.nets.specs.TrieOps.{kind_of};
ghost use Rattle.trie_emit.specs.Combine.{rank, Means};
ghost use Rattle.trie_spans.specs.Extents.{Span, last_ahead};

use nodes::steps;
use trie_emit::combining::{EMPTY, FULL, MIXED};

// The kind of the trie from node i up to node e.
pub fn kind(w: &[u32], b: usize, i: usize, e: usize) -> usize
    requires { (o : ℕ) × (g : ℕ) × (t : Trie) × Span w.now b o g i e t }
    ensures { (o g : ℕ) (t : Trie) → Span w.now b o g i e t → result ≡ rank (kind_of t) }
{
    if i == e {
        return EMPTY;
    }
    if steps::word(w, b, i) == 0 {
        return FULL;
    }
    MIXED
}

// The distance to a node's last child, by its word.
fn last_ahead(x: usize) -> usize
    ensures { result ≡ last_ahead x }
{
    if x < 2 {
        return 1;
    }
    x / 2
}

// Where the trie ends that the number i means: behind its last leaf, to which the last children lead. A `loop`: it goes from node to node by
// the distances in the words, over no range.
pub fn end_from(w: &[u32], b: usize, i: usize) -> usize
    requires by_index { (o : ℕ) × (g : ℕ) × (t : Trie) × Means w.now b o g i t }
    requires i_bound { i < 4294967295 }
    ensures { (o g : ℕ) (t : Trie) → Means w.now b o g i t → result ≡ i + size t }
{
    if i == 0 {
        return 0;
    }
    let mut k = i;
    loop {
        let x = steps::word(w, b, k);
        if x == 0 {
            return k + 1;
        }
        k += last_ahead(x);
    }
}
