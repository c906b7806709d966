// A set operation on two tries in the words, written where there is room for it apart from both. The operations are 0 union, 1 what is common, 2 difference and 3 difference
// with full halves left apart. A trie is given by a number: 0 nothing, ALL everything, else the node where it stands.
ghost use Rattle.std.specs.Prelude.{◌≡◌, ℕ, ◌+◌, ◌-◌, ◌≤◌, ◌<◌, ◌%◌, ◌/◌};
ghost use Rattle.nets.specs.Tries.{Trie, size, side};
ghost use Rattle.nets.specs.TrieOps.{Kind, kind_of, verdict, half};
ghost use Rattle.trie_emit.specs.Answers.{answer, Emits};
ghost use Rattle.trie_emit.specs.Combine.{op_of, op_on, rank, Means, Inputs, Gap};

use crate::emitting;
use crate::emitting::Emitted;
use nodes::steps;

pub const ALL: usize = 4294967295;

// The kinds of a trie, as truth values: false, unknown, true.
pub const EMPTY: usize = 0;

pub const MIXED: usize = 1;

pub const FULL: usize = 2;

// The kind of what the number i means.
fn kind(w: &[u32], b: usize, i: usize) -> usize
    requires { (o : ℕ) × (g : ℕ) × (t : Trie) × Means w.now b o g i t }
    ensures { (o g : ℕ) (t : Trie) → Means w.now b o g i t → result ≡ rank (kind_of t) }
{
    if i == 0 {
        return EMPTY;
    }
    if i == ALL {
        return FULL;
    }
    if steps::word(w, b, i) == 0 {
        return FULL;
    }
    MIXED
}

// What the operation makes of two kinds, where that settles it, else MIXED: or, and, and not, of three truth values.
pub fn settled(op: usize, x: usize, y: usize) -> usize
    requires { y ≤ 2 }
    ensures { (k l : Kind) → x ≡ rank k → y ≡ rank l → result ≡ rank (verdict (op_of op) k l) }
{
    if op == 0 {
        return x.max(y);
    }
    if op == 1 {
        return x.min(y);
    }
    x.min(FULL - y)
}

// The same of what two numbers mean.
pub fn outcome(w: &[u32], b: usize, op: usize, a: usize, c: usize) -> usize
    requires { (o : ℕ) × (g : ℕ) × (t : Trie) × (u : Trie) × Means w.now b o g a t × Means w.now b o g c u }
    ensures { (o g : ℕ) (t u : Trie) → Means w.now b o g a t → Means w.now b o g c u → result ≡ rank (verdict (op_of op) (kind_of t) (kind_of u)) }
{
    let x = kind(w, b, a);
    let y = kind(w, b, c);
    settled(op, x, y)
}

// The distance to a child by a node's word.
fn distance(x: usize, second: bool) -> usize
    ensures { result ≡ side second (x % 2) (x / 2) }
{
    if second { x / 2 } else { x % 2 }
}

// The number of a half of what the number i means.
pub fn piece(w: &[u32], b: usize, i: usize, second: bool) -> usize
    requires { (o : ℕ) × (g : ℕ) × (t : Trie) × Means w.now b o g i t }
    ensures { (o g : ℕ) (t : Trie) → Means w.now b o g i t → Means w.now b o g result (half second t) }
{
    let k = kind(w, b, i);
    if k == EMPTY {
        return 0;
    }
    if k == FULL {
        return ALL;
    }
    let d = distance(steps::word(w, b, i), second);
    if d == 0 {
        return 0;
    }
    i + d
}

// The numbers of the halves of two.
#[derive(Clone, Copy)]
pub struct Pair {
    pub a: usize,
    pub c: usize,
}

pub fn halves(w: &[u32], b: usize, a: usize, c: usize, second: bool) -> Pair
    requires { (o : ℕ) × (g : ℕ) × (t : Trie) × (u : Trie) × Means w.now b o g a t × Means w.now b o g c u }
    ensures { (o g : ℕ) (t u : Trie) → Means w.now b o g a t → Means w.now b o g c u
        → Means w.now b o g result.a (half second t) × Means w.now b o g result.c (half second u) }
{
    Pair {
        a: piece(w, b, a, second),
        c: piece(w, b, c, second),
    }
}

// What emit answers, with nothing written.
fn foresee(w: &[u32], b: usize, op: usize, a: usize, c: usize, o: usize, fuel: usize) -> Emitted
    requires { (g : ℕ) × (t : Trie) × (u : Trie) × Inputs w.now b a c o g fuel t u }
    ensures { (g : ℕ) (t u : Trie) → Inputs w.now b a c o g fuel t u → result ≡ answer o (op_on op fuel t u) }
{
    let v = outcome(w, b, op, a, c);
    if v == EMPTY {
        return Emitted::Empty;
    }
    if v == FULL {
        return Emitted::Full;
    }
    let p = halves(w, b, a, c, false);
    let q = halves(w, b, a, c, true);
    let l = foresee(w, b, op, p.a, p.c, o + 1, fuel - 1);
    let m = emitting::end_of(l, o + 1);
    let r = foresee(w, b, op, q.a, q.c, m, fuel - 1);
    emitting::parent(op != 3, o, l, r)
}

// The nodes of the result.
pub fn op_size(w: &[u32], b: usize, op: usize, a: usize, c: usize, fuel: usize) -> usize
    requires { (t : Trie) × (u : Trie) × Inputs w.now b a c 0 0 fuel t u }
    ensures { (t u : Trie) → Inputs w.now b a c 0 0 fuel t u → result ≡ size (op_on op fuel t u) }
{
    let x = foresee(w, b, op, a, c, 0, fuel);
    emitting::end_of(x, 0)
}

// Writes the result from node o on.
pub fn emit(
    w: &mut [u32],
    b: usize,
    op: usize,
    a: usize,
    c: usize,
    o: usize,
    fuel: usize,
) -> Emitted
    requires { (g : ℕ) × (t : Trie) × (u : Trie) × Inputs w.old b a c o g fuel t u × Gap w.old b o g (op_on op fuel t u) }
    ensures { (g : ℕ) (t u : Trie) → Inputs w.old b a c o g fuel t u → Gap w.old b o g (op_on op fuel t u)
        → Emits w.old w.new b o result (op_on op fuel t u) }
{
    let v = outcome(w, b, op, a, c);
    if v == EMPTY {
        return Emitted::Empty;
    }
    if v == FULL {
        return Emitted::Full;
    }
    let p = halves(w, b, a, c, false);
    let q = halves(w, b, a, c, true);
    let l = emit(w, b, op, p.a, p.c, o + 1, fuel - 1);
    let m = emitting::end_of(l, o + 1);
    let r = emit(w, b, op, q.a, q.c, m, fuel - 1);
    emitting::finish(w, b, op != 3, o, l, r)
}
