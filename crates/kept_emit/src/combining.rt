// The operations of the first form, by their numbers: 0 union, 1 what is common, 2 difference and 3 difference with full halves left apart. A source is given by a number and the string that it
// is below.
ghost use Rattle.std.specs.Prelude.{◌≡◌, [], ℕ, ◌+◌, length};
ghost use Rattle.nets.specs.Bits.{Bits};
ghost use Rattle.nets.specs.Tries.{Trie};
ghost use Rattle.nets.specs.TrieOps.{kind_of, verdict, half};
ghost use Rattle.nets.specs.Networks.{net_from};
ghost use Rattle.trie_emit.specs.Combine.{op_of, op_on, rank};
ghost use Rattle.trie_paths.specs.Spans.{snoc};
ghost use Rattle.branch_points.specs.KeptTries.{kept_size};
ghost use Rattle.nodes.specs.Words.{put};
ghost use Rattle.kept_nodes.specs.Parse.{KeptRoom};
ghost use Rattle.kept_nodes.specs.Words.{kept_enc, spot};
ghost use Rattle.kept_sources.specs.Sources.{KeptMeans};
ghost use Rattle.kept_emit.specs.Answers.{answer, Emits};
ghost use Rattle.kept_emit.specs.Combine.{Inputs, KeptGap};

use crate::emitting::{answer_over, finish, settle, size_of};
use kept_reading::strings::child;
use kept_sources::{kind, piece};
use nets::Net;
use trie_emit::combining::{EMPTY, FULL, Pair, settled};
use trie_emit::emitting::Emitted;
use trie_paths::halves::whole;

// What the operation makes of the kinds of what two numbers mean below a string of d bits, where that settles it.
pub fn outcome(
    w: &[u32],
    family: u8,
    b: usize,
    n: u32,
    op: usize,
    a: usize,
    c: usize,
    d: u8,
) -> usize
    requires { KeptRoom family w.now b n × ((o : ℕ) × (g : ℕ) × (p : Bits) × (t : Trie) × (u : Trie) × (length p ≡ d) × KeptMeans family w.now b n o g p a t × KeptMeans family w.now b n o g p c u) }
    ensures { (o g : ℕ) (p : Bits) (t u : Trie) → length p ≡ d → KeptMeans family w.now b n o g p a t → KeptMeans family w.now b n o g p c u
        → result ≡ rank (verdict (op_of op) (kind_of t) (kind_of u)) }
{
    let x = kind(w, family, b, n, a, d);
    let y = kind(w, family, b, n, c, d);
    settled(op, x, y)
}

// The numbers of the halves of two.
pub fn halves(
    w: &[u32],
    family: u8,
    b: usize,
    n: u32,
    a: usize,
    c: usize,
    d: u8,
    second: bool,
) -> Pair
    requires { KeptRoom family w.now b n × ((o : ℕ) × (g : ℕ) × (p : Bits) × (t : Trie) × (u : Trie) × (length p ≡ d) × KeptMeans family w.now b n o g p a t × KeptMeans family w.now b n o g p c u) }
    ensures { (o g : ℕ) (p : Bits) (t u : Trie) → length p ≡ d → KeptMeans family w.now b n o g p a t → KeptMeans family w.now b n o g p c u
        → KeptMeans family w.now b n o g (snoc p second) result.a (half second t) × KeptMeans family w.now b n o g (snoc p second) result.c (half second u) }
{
    Pair {
        a: piece(w, family, b, n, a, d, second),
        c: piece(w, family, b, n, c, d, second),
    }
}

// What emit answers, with nothing written.
pub fn foresee(
    w: &[u32],
    family: u8,
    b: usize,
    n: u32,
    op: usize,
    a: usize,
    c: usize,
    d: u8,
    fuel: usize,
) -> Emitted
    requires { (o : ℕ) × (e : ℕ) × (p : Bits) × (t : Trie) × (u : Trie) × (length p ≡ d) × Inputs family w.now b n a c o e p fuel t u }
    ensures { (o e : ℕ) (p : Bits) (t u : Trie) → length p ≡ d → Inputs family w.now b n a c o e p fuel t u → result ≡ answer (op_on op fuel t u) }
{
    let v = outcome(w, family, b, n, op, a, c, d);
    if v == EMPTY {
        return Emitted::Empty;
    }
    if v == FULL {
        return Emitted::Full;
    }
    let p = halves(w, family, b, n, a, c, d, false);
    let q = halves(w, family, b, n, a, c, d, true);
    let l = foresee(w, family, b, n, op, p.a, p.c, d + 1, fuel - 1);
    let r = foresee(w, family, b, n, op, q.a, q.c, d + 1, fuel - 1);
    answer_over(op != 3, l, r)
}

// The nodes of the result of two whole tries.
pub fn op_size(
    w: &[u32],
    family: u8,
    b: usize,
    n: u32,
    op: usize,
    a: usize,
    c: usize,
    fuel: usize,
) -> usize
    requires { (o : ℕ) × (e : ℕ) × (t : Trie) × (u : Trie) × Inputs family w.now b n a c o e [] fuel t u }
    ensures { (o e : ℕ) (t u : Trie) → Inputs family w.now b n a c o e [] fuel t u → result ≡ kept_size (op_on op fuel t u) }
{
    let x = foresee(w, family, b, n, op, a, c, 0, fuel);
    size_of(x)
}

// Writes the result below the string of the network path, so that it ends before node e.
pub fn emit(
    w: &mut [u32],
    family: u8,
    b: usize,
    n: u32,
    op: usize,
    a: usize,
    c: usize,
    e: usize,
    path: Net,
    fuel: usize,
) -> Emitted
    requires { (o : ℕ) × (p : Bits) × (t : Trie) × (u : Trie) × (path ≡ net_from family p) × Inputs family w.old b n a c o e p fuel t u × KeptGap n o e (op_on op fuel t u) }
    ensures { (o : ℕ) (p : Bits) (t u : Trie) → path ≡ net_from family p → Inputs family w.old b n a c o e p fuel t u → KeptGap n o e (op_on op fuel t u)
        → Emits family w.old w.new b p e result (op_on op fuel t u) }
{
    let d = path.len;
    let v = outcome(w, family, b, n, op, a, c, d);
    if v == EMPTY {
        return Emitted::Empty;
    }
    if v == FULL {
        return Emitted::Full;
    }
    let p = halves(w, family, b, n, a, c, d, false);
    let q = halves(w, family, b, n, a, c, d, true);
    let first = child(path, false);
    let l = emit(w, family, b, n, op, p.a, p.c, e, first, fuel - 1);
    // 0 where it has no place, being a leaf that will be joined.
    let m = e.saturating_sub(size_of(l));
    let second = child(path, true);
    let r = emit(w, family, b, n, op, q.a, q.c, m, second, fuel - 1);
    finish(w, family, b, op != 3, e, l, r, path)
}

// Writes the result of two whole tries into the nodes from o up to e, which are as many as it has.
pub fn fill(
    w: &mut [u32],
    family: u8,
    b: usize,
    n: u32,
    op: usize,
    a: usize,
    c: usize,
    o: usize,
    e: usize,
    fuel: usize,
)
    requires { (t : Trie) × (u : Trie) × Inputs family w.old b n a c o e [] fuel t u × KeptGap n o e (op_on op fuel t u) × (o + kept_size (op_on op fuel t u) ≡ e) }
    ensures { (t u : Trie) → Inputs family w.old b n a c o e [] fuel t u → KeptGap n o e (op_on op fuel t u) → o + kept_size (op_on op fuel t u) ≡ e
        → w.new ≡ put w.old (spot family b o) (kept_enc family [] (op_on op fuel t u)) }
{
    let path = whole(family);
    let x = emit(w, family, b, n, op, a, c, e, path, fuel);
    settle(w, family, b, o, path, x);
}
