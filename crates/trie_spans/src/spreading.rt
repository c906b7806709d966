// A part that one trie alone has: written as it stands, or as it is simplified to. Then only the nodes over a pair of leaves are gone down to, and the parts between them are moved as blocks.
ghost use Rattle.std.specs.Prelude.{ℕ};
ghost use Rattle.nets.specs.Tries.{Trie};
ghost use Rattle.trie_blocks.specs.Joins.{Apart};
ghost use Rattle.trie_emit.specs.Combine.{joined, op_on, Gap};
ghost use Rattle.trie_spans.specs.Extents.{Extents, Writes, tidy};

use crate::answering::{block, over_halves};
use crate::extents::kind;
use nodes::steps;
use trie_blocks::joining::{join_from, next_join};
use trie_emit::combining::MIXED;

// Writes what the trie from node i up to node e is simplified to, from node o on; before node `next` nothing joins.
fn spread(w: &mut [u32], b: usize, i: usize, e: usize, o: usize, next: usize, fuel: usize) -> usize
    requires { ((g : ℕ) × (t : Trie) × Extents w.old b i e 0 0 o g fuel t Trie.none × Gap w.old b o g (op_on 0 fuel t Trie.none)) × Apart w.old b i e next }
    ensures { (g : ℕ) (t : Trie) → Extents w.old b i e 0 0 o g fuel t Trie.none → Gap w.old b o g (op_on 0 fuel t Trie.none)
        → Writes w.old w.new b o result (op_on 0 fuel t Trie.none) }
{
    if e <= next {
        return block(w, b, i, e, o);
    }
    let k = kind(w, b, i, e);
    if k != MIXED {
        return k / 2;
    }
    let m = steps::middle(steps::word(w, b, i) / 2, i, e);
    let l = spread(w, b, i + 1, m, o + 1, next, fuel - 1);
    let p = join_from(w, b, m, e, next);
    let r = spread(w, b, m, e, o + 1 + l, p, fuel - 1);
    over_halves(w, b, true, o, l, r)
}

// Writes the trie from node i up to node e from node o on, its halves joined but for operation 3.
pub fn alone(w: &mut [u32], b: usize, op: usize, i: usize, e: usize, o: usize, fuel: usize) -> usize
    requires { (g : ℕ) × (t : Trie) × Extents w.old b i e 0 0 o g fuel t Trie.none × Gap w.old b o g (tidy (joined op) t) }
    ensures { (g : ℕ) (t : Trie) → Extents w.old b i e 0 0 o g fuel t Trie.none → Gap w.old b o g (tidy (joined op) t)
        → Writes w.old w.new b o result (tidy (joined op) t) }
{
    if op == 3 {
        return block(w, b, i, e, o);
    }
    if i == e {
        return 0;
    }
    let next = next_join(w, b, i, e);
    spread(w, b, i, e, o, next, fuel)
}
