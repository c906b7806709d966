// Union, common part and difference of two tries, by their numbers of trie_emit. Only nodes that both tries have are gone down to.
ghost use Rattle.std.specs.Prelude.{true, false, ◌≡◌, ℕ, ◌≤◌};
ghost use Rattle.nets.specs.Tries.{Trie};
ghost use Rattle.nets.specs.TrieOps.{kind_of};
ghost use Rattle.trie_emit.specs.Answers.{Emits};
ghost use Rattle.trie_emit.specs.Combine.{op_on, rank, Inputs, Gap};
ghost use Rattle.trie_spans.specs.Extents.{Extents, Writes};

use nodes::steps;
use trie_emit::combining;
use trie_emit::combining::{ALL, MIXED};
use trie_emit::emitting::Emitted;
use trie_spans::answering::{above, answer_of, nodes_of, over_halves};
use trie_spans::extents::{end_from, kind};
use trie_spans::spreading::alone;

// Writes what the operation makes of two tries of the kinds x and y, where one of them is flat: nothing, a leaf, the other one, or what it leaves of all.
fn flat(
    w: &mut [u32],
    b: usize,
    op: usize,
    x: usize,
    y: usize,
    a: usize,
    ea: usize,
    c: usize,
    ec: usize,
    o: usize,
    fuel: usize,
) -> usize
    requires by_index { (g : ℕ) × (t : Trie) × (u : Trie) × Extents w.old b a ea c ec o g fuel t u × Gap w.old b o g (op_on op fuel t u) × (x ≡ rank (kind_of t)) × (y ≡ rank (kind_of u)) }
    requires fact { x ≡ 1 → y ≡ 1 → ⊥ }
    ensures { (g : ℕ) (t u : Trie) → Extents w.old b a ea c ec o g fuel t u → Gap w.old b o g (op_on op fuel t u) → x ≡ rank (kind_of t) → y ≡ rank (kind_of u)
        → Writes w.old w.new b o result (op_on op fuel t u) }
{
    let v = combining::settled(op, x, y);
    if v != MIXED {
        return v / 2;
    }
    if y != MIXED {
        return alone(w, b, op, a, ea, o, fuel);
    }
    if op < 2 {
        return alone(w, b, op, c, ec, o, fuel);
    }
    let z = combining::emit(w, b, op, a, c, o, fuel);
    nodes_of(z, o)
}

pub fn are_mixed(x: usize, y: usize) -> bool
    ensures { (result ≡ true → (x ≡ 1) × (y ≡ 1)) × (result ≡ false → x ≡ 1 → y ≡ 1 → ⊥) }
{
    x == MIXED && y == MIXED
}

// Whether two nodes of the words p and q have each one child, on the same side: it follows its node.
pub fn is_only(p: usize, q: usize) -> bool
    ensures { result ≡ true → (p ≤ 2) × (p ≡ q) }
{
    p <= 2 && p == q
}

// Writes what the operation makes of the tries from node a up to node ea and from node c up to node ec, from node o on.
fn combine(
    w: &mut [u32],
    b: usize,
    op: usize,
    a: usize,
    ea: usize,
    c: usize,
    ec: usize,
    o: usize,
    fuel: usize,
) -> usize
    requires { (g : ℕ) × (t : Trie) × (u : Trie) × Extents w.old b a ea c ec o g fuel t u × Gap w.old b o g (op_on op fuel t u) }
    ensures { (g : ℕ) (t u : Trie) → Extents w.old b a ea c ec o g fuel t u → Gap w.old b o g (op_on op fuel t u)
        → Writes w.old w.new b o result (op_on op fuel t u) }
{
    let x = kind(w, b, a, ea);
    let y = kind(w, b, c, ec);
    if !are_mixed(x, y) {
        return flat(w, b, op, x, y, a, ea, c, ec, o, fuel);
    }
    let p = steps::word(w, b, a);
    let q = steps::word(w, b, c);
    if is_only(p, q) {
        let n = combine(w, b, op, a + 1, ea, c + 1, ec, o + 1, fuel - 1);
        return above(w, b, o, p, n);
    }
    let m = steps::middle(p / 2, a, ea);
    let k = steps::middle(q / 2, c, ec);
    let l = combine(w, b, op, a + 1, m, c + 1, k, o + 1, fuel - 1);
    let r = combine(w, b, op, m, ea, k, ec, o + 1 + l, fuel - 1);
    over_halves(w, b, op != 3, o, l, r)
}

// Writes what the operation makes of the tries that the numbers a and c mean, from node o on: as trie_emit does, and faster.
pub fn emit(
    w: &mut [u32],
    b: usize,
    op: usize,
    a: usize,
    c: usize,
    o: usize,
    fuel: usize,
) -> Emitted
    requires { (g : ℕ) × (t : Trie) × (u : Trie) × Inputs w.old b a c o g fuel t u × Gap w.old b o g (op_on op fuel t u) }
    ensures { (g : ℕ) (t u : Trie) → Inputs w.old b a c o g fuel t u → Gap w.old b o g (op_on op fuel t u)
        → Emits w.old w.new b o result (op_on op fuel t u) }
{
    if ALL <= a.max(c) {
        return combining::emit(w, b, op, a, c, o, fuel);
    }
    let ea = end_from(w, b, a);
    let ec = end_from(w, b, c);
    let n = combine(w, b, op, a, ea, c, ec, o, fuel);
    answer_of(n, o)
}
