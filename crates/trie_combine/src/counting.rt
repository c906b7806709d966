// The nodes of what `combining` writes, with nothing written.
ghost use Rattle.std.specs.Prelude.{◌≡◌};
ghost use Rattle.nets.specs.Tries.{Trie, size};
ghost use Rattle.nets.specs.TrieOps.{kind_of};
ghost use Rattle.trie_blocks.specs.Joins.{Apart};
ghost use Rattle.trie_emit.specs.Combine.{joined, op_on, rank, Inputs};
ghost use Rattle.trie_spans.specs.Extents.{Extents, tidy};

use crate::combining::{are_mixed, is_only};
use nodes::steps;
use trie_blocks::joining::{join_from, next_join};
use trie_emit::combining;
use trie_emit::combining::{ALL, MIXED};
use trie_spans::answering::{above_nodes, over_nodes};
use trie_spans::extents::{end_from, kind};

// Of the trie from node i up to node e, simplified; before node `next` nothing joins.
fn spread(w: &[u32], b: usize, i: usize, e: usize, next: usize, fuel: usize) -> usize
    requires { ((t : Trie) × Extents w.now b i e 0 0 0 0 fuel t Trie.none) × Apart w.now b i e next }
    ensures { (t : Trie) → Extents w.now b i e 0 0 0 0 fuel t Trie.none → result ≡ size (op_on 0 fuel t Trie.none) }
{
    if e <= next {
        return e - i;
    }
    let k = kind(w, b, i, e);
    if k != MIXED {
        return k / 2;
    }
    let m = steps::middle(steps::word(w, b, i) / 2, i, e);
    let p = join_from(w, b, m, e, next);
    let l = spread(w, b, i + 1, m, next, fuel - 1);
    let r = spread(w, b, m, e, p, fuel - 1);
    over_nodes(true, l, r)
}

// Of the trie from node i up to node e, its halves joined but for operation 3.
fn alone(w: &[u32], b: usize, op: usize, i: usize, e: usize, fuel: usize) -> usize
    requires { (t : Trie) × Extents w.now b i e 0 0 0 0 fuel t Trie.none }
    ensures { (t : Trie) → Extents w.now b i e 0 0 0 0 fuel t Trie.none → result ≡ size (tidy (joined op) t) }
{
    if op == 3 {
        return e - i;
    }
    if i == e {
        return 0;
    }
    let next = next_join(w, b, i, e);
    spread(w, b, i, e, next, fuel)
}

// Of two tries of the kinds x and y, where one of them is flat.
fn flat(
    w: &[u32],
    b: usize,
    op: usize,
    x: usize,
    y: usize,
    a: usize,
    ea: usize,
    c: usize,
    ec: usize,
    fuel: usize,
) -> usize
    requires extents { (t : Trie) × (u : Trie) × Extents w.now b a ea c ec 0 0 fuel t u × (x ≡ rank (kind_of t)) × (y ≡ rank (kind_of u)) }
    requires fact { x ≡ 1 → y ≡ 1 → ⊥ }
    ensures { (t u : Trie) → Extents w.now b a ea c ec 0 0 fuel t u → x ≡ rank (kind_of t) → y ≡ rank (kind_of u) → result ≡ size (op_on op fuel t u) }
{
    let v = combining::settled(op, x, y);
    if v != MIXED {
        return v / 2;
    }
    if y != MIXED {
        return alone(w, b, op, a, ea, fuel);
    }
    if op < 2 {
        return alone(w, b, op, c, ec, fuel);
    }
    combining::op_size(w, b, op, a, c, fuel)
}

// Of the tries from node a up to node ea and from node c up to node ec.
fn count(
    w: &[u32],
    b: usize,
    op: usize,
    a: usize,
    ea: usize,
    c: usize,
    ec: usize,
    fuel: usize,
) -> usize
    requires { (t : Trie) × (u : Trie) × Extents w.now b a ea c ec 0 0 fuel t u }
    ensures { (t u : Trie) → Extents w.now b a ea c ec 0 0 fuel t u → result ≡ size (op_on op fuel t u) }
{
    let x = kind(w, b, a, ea);
    let y = kind(w, b, c, ec);
    if !are_mixed(x, y) {
        return flat(w, b, op, x, y, a, ea, c, ec, fuel);
    }
    let p = steps::word(w, b, a);
    let q = steps::word(w, b, c);
    if is_only(p, q) {
        let n = count(w, b, op, a + 1, ea, c + 1, ec, fuel - 1);
        return above_nodes(n);
    }
    let m = steps::middle(p / 2, a, ea);
    let k = steps::middle(q / 2, c, ec);
    let l = count(w, b, op, a + 1, m, c + 1, k, fuel - 1);
    let r = count(w, b, op, m, ea, k, ec, fuel - 1);
    over_nodes(op != 3, l, r)
}

// Of the tries that the numbers a and c mean.
pub fn op_size(w: &[u32], b: usize, op: usize, a: usize, c: usize, fuel: usize) -> usize
    requires { (t : Trie) × (u : Trie) × Inputs w.now b a c 0 0 fuel t u }
    ensures { (t u : Trie) → Inputs w.now b a c 0 0 fuel t u → result ≡ size (op_on op fuel t u) }
{
    if ALL <= a.max(c) {
        return combining::op_size(w, b, op, a, c, fuel);
    }
    let ea = end_from(w, b, a);
    let ec = end_from(w, b, c);
    count(w, b, op, a, ea, c, ec, fuel)
}
