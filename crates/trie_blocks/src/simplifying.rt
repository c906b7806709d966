// Joins the halves of each block, in place. A part in which nothing joins stays as it is: only the nodes over a pair of leaves are gone down to, and the parts between them are moved as blocks. The
// simplified trie is written at a node that is not behind the one where the trie is read, and so never ahead of what is read.
ghost use Rattle.std.specs.Prelude.{ℕ};
ghost use Rattle.nets.specs.Tries.{Trie, simplify_t};
ghost use Rattle.trie_emit.specs.Answers.{Emits};
ghost use Rattle.trie_blocks.specs.Simplify.{Source};
ghost use Rattle.trie_blocks.specs.Joins.{Apart};

use crate::joining::join_from;
use nodes::steps::View;
use nodes::{steps, writing};
use trie_emit::emitting;
use trie_emit::emitting::Emitted;

// The trie in which nothing joins, from node i up to node e, moved to node o.
fn moved(w: &mut [u32], b: usize, i: usize, e: usize, o: usize) -> Emitted
    requires { ((t : Trie) × (fuel : ℕ) × Source w.old b i e o fuel t) × Apart w.old b i e e }
    ensures { (t : Trie) (fuel : ℕ) → Source w.old b i e o fuel t → Emits w.old w.new b o result (simplify_t t) }
{
    if i == e {
        return Emitted::Empty;
    }
    if i + 1 == e {
        return Emitted::Full;
    }
    if i == o {
        return Emitted::Node(e);
    }
    writing::shift(w, b + (i - 1), b + (o - 1), e - i);
    Emitted::Node(o + (e - i))
}

// Reads the trie that stands from node i up to node e and writes what it is simplified to from node o on; before node `next` nothing joins.
pub fn simplify(
    w: &mut [u32],
    b: usize,
    i: usize,
    e: usize,
    o: usize,
    next: usize,
    fuel: usize,
) -> Emitted
    requires { ((t : Trie) × Source w.old b i e o fuel t) × Apart w.old b i e next }
    ensures { (t : Trie) → Source w.old b i e o fuel t → Emits w.old w.new b o result (simplify_t t) }
{
    if e <= next {
        return moved(w, b, i, e, o);
    }
    let v = steps::look(w, b, i, e);
    match v {
        View::Nothing => Emitted::Empty,
        View::Leaf => Emitted::Full,
        View::Inner(m) => {
            let l = simplify(w, b, i + 1, m, o + 1, next, fuel - 1);
            let k = emitting::end_of(l, o + 1);
            let p = join_from(w, b, m, e, next);
            let r = simplify(w, b, m, e, k, p, fuel - 1);
            emitting::finish(w, b, true, o, l, r)
        }
    }
}
