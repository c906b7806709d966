// What was written of a trie, told by its nodes: of none and of one nothing was written yet. So an answer is a number, and the end of the trie is its beginning and that number.
ghost use Rattle.std.specs.Prelude.{Bool, List, ◌≡◌, ℕ, ◌+◌, ◌≤◌, ◌<◌, ◌^◌, length};
ghost use Rattle.nets.specs.Tries.{Trie, size, glue};
ghost use Rattle.nets.specs.TrieOps.{rejoin};
ghost use Rattle.nodes.specs.Words.{put, place};
ghost use Rattle.trie_emit.specs.Answers.{answer};
ghost use Rattle.trie_emit.specs.Combine.{Gap};
ghost use Rattle.trie_spans.specs.Extents.{Span, Writes, Halves, Only, leaf_of};

use nodes::writing;
use trie_emit::emitting;
use trie_emit::emitting::Emitted;

// The answer of a trie of n nodes that begins at node o.
pub fn answer_of(n: usize, o: usize) -> Emitted
    requires { o + n < 2 ^ 62 }
    ensures { (t : Trie) → n ≡ size t → result ≡ answer o t }
{
    if n == 0 {
        return Emitted::Empty;
    }
    if n == 1 {
        return Emitted::Full;
    }
    Emitted::Node(o + n)
}

// The nodes of a trie that begins at node o, by its answer.
pub fn nodes_of(x: Emitted, o: usize) -> usize
    requires { (o < 2 ^ 62) × ((t : Trie) × (x ≡ answer o t)) }
    ensures { (t : Trie) → x ≡ answer o t → result ≡ size t }
{
    emitting::end_of(x, o) - o
}

// Writes at node i the leaf of a trie of n nodes that is one.
fn leaf(w: &mut [u32], b: usize, i: usize, n: usize)
    requires { (1 ≤ i) × (n ≡ 1 → place b i < length w.old) }
    ensures { w.new ≡ put w.old (place b i) (leaf_of n) }
{
    if n == 1 {
        writing::store(w, b, i, 0);
    }
}

// The nodes over two halves, of l and of r nodes.
pub fn over_nodes(joined: bool, l: usize, r: usize) -> usize
    requires { l + r < 2 ^ 62 }
    ensures { (t u : Trie) → l ≡ size t → r ≡ size u → result ≡ size (glue joined t u) }
{
    let n = l + r;
    if n == 0 {
        return 0;
    }
    if joined && l == 1 && r == 1 {
        return 1;
    }
    n + 1
}

// The nodes over one half alone, of n nodes.
pub fn above_nodes(n: usize) -> usize
    requires { n < 2 ^ 62 }
    ensures { (d : Bool) (t : Trie) → n ≡ size t → result ≡ size (rejoin d t Trie.none) }
{
    if n == 0 {
        return 0;
    }
    n + 1
}

// Writes node o over its halves, of l and of r nodes.
pub fn over_halves(w: &mut [u32], b: usize, joined: bool, o: usize, l: usize, r: usize) -> usize
    requires { (v : List ℕ) × (t : Trie) × (u : Trie) × Halves v w.old b joined o l r t u }
    ensures { (v : List ℕ) (t u : Trie) → Halves v w.old b joined o l r t u → Writes v w.new b o result (glue joined t u) }
{
    let n = over_nodes(joined, l, r);
    if n < 2 {
        return n;
    }
    let m = o + 1 + l;
    leaf(w, b, o + 1, l);
    leaf(w, b, m, r);
    writing::links(w, b, o, m, m + r);
    n
}

// Writes node o over one half alone, of n nodes; x is its word.
pub fn above(w: &mut [u32], b: usize, o: usize, x: usize, n: usize) -> usize
    requires { (v : List ℕ) × (d : Bool) × (t : Trie) × Only v w.old b o x n d t }
    ensures { (v : List ℕ) (d : Bool) (t : Trie) → Only v w.old b o x n d t → Writes v w.new b o result (rejoin d t Trie.none) }
{
    if n == 0 {
        return 0;
    }
    leaf(w, b, o + 1, n);
    writing::store(w, b, o, x);
    n + 1
}

// The trie that stands from node i up to node e, written from node o on as it is.
pub fn block(w: &mut [u32], b: usize, i: usize, e: usize, o: usize) -> usize
    requires { (g : ℕ) × (t : Trie) × Span w.old b o g i e t × Gap w.old b o g t }
    ensures { (g : ℕ) (t : Trie) → Span w.old b o g i e t → Gap w.old b o g t → Writes w.old w.new b o result t }
{
    let n = e - i;
    if n < 2 {
        return n;
    }
    writing::shift(w, b + (i - 1), b + (o - 1), n);
    n
}
