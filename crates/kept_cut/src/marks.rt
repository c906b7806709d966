// Marks at the nodes of which nothing is left, over two halves that have theirs.
ghost use Rattle.std.specs.Prelude.{false, not, List, [], ◌≡◌, ℕ};
ghost use Rattle.nets.specs.Bits.{Bits};
ghost use Rattle.nets.specs.Tries.{Trie, none, is_none, glue};
ghost use Rattle.nodes.specs.Words.{put};
ghost use Rattle.kept_nodes.specs.Words.{spot};
ghost use Rattle.kept_steps.specs.Segments.{KeptSegment};
ghost use Rattle.kept_sieve.specs.Marks.{mark_enc};
ghost use Rattle.kept_cut.specs.Cuts.{Closing, Left};

use kept_sieve::{clear_mark, set_mark};

// Marks the trie from node i up to node e, where it has a node: nothing is left of it.
pub fn drop_all(w: &mut [u32], family: u8, b: usize, n: u32, i: usize, e: usize)
    requires { (p : Bits) × (t : Trie) × KeptSegment family w.old b n i e e p t [] }
    ensures { (p : Bits) (t : Trie) → KeptSegment family w.old b n i e e p t []
        → w.new ≡ put w.old (spot family b i) (mark_enc family p t none) }
{
    if i == e {
        return;
    }
    set_mark(w, family, b, n, i);
}

// Takes the marks from both halves of the branch point i, the second at node a and the first at node m, and marks it.
fn lift(w: &mut [u32], family: u8, b: usize, n: u32, i: usize, a: usize, m: usize)
    requires { (v : List ℕ) × (e : ℕ) × (p : Bits) × (t : Trie) × Closing family v w.old b n i e a m p t none none × (a ≡ i → ⊥) }
    ensures { (v : List ℕ) (e : ℕ) (p : Bits) (t : Trie) → Closing family v w.old b n i e a m p t none none → (a ≡ i → ⊥)
        → w.new ≡ put v (spot family b i) (mark_enc family p t none) }
{
    clear_mark(w, family, b, n, a);
    clear_mark(w, family, b, n, m);
    set_mark(w, family, b, n, i);
}

// Whether anything is left of the trie at node i, where the words have the marks of its halves, and something is left of its first half, and of its second.
pub fn settle(
    w: &mut [u32],
    family: u8,
    b: usize,
    n: u32,
    i: usize,
    a: usize,
    m: usize,
    first: bool,
    second: bool,
) -> bool
    requires { (v : List ℕ) × (e : ℕ) × (p : Bits) × (t : Trie) × (c : Trie) × (d : Trie) × Closing family v w.old b n i e a m p t c d
        × (first ≡ not (is_none c)) × (second ≡ not (is_none d)) }
    ensures { (v : List ℕ) (e : ℕ) (p : Bits) (t c d : Trie) → Closing family v w.old b n i e a m p t c d
        → first ≡ not (is_none c) → second ≡ not (is_none d) → Left family v w.new b i p t (glue false c d) result }
{
    if first {
        return true;
    }
    if second {
        return true;
    }
    if a == i {
        return false;
    }
    lift(w, family, b, n, i, a, m);
    false
}
