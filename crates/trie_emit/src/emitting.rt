// What a lazy emission answers, and the node over the answers of its two children.
ghost use Rattle.std.specs.Prelude.{◌≡◌, ◌&&◌, List, ℕ, ◌≤◌, ◌<◌, ◌^◌, length};
ghost use Rattle.nets.specs.Tries.{Trie, glue};
ghost use Rattle.nodes.specs.Words.{put, place};
ghost use Rattle.trie_emit.specs.Answers.{answer, Emits, end_of, rest_of, is_full, Both, Pending};

use nodes::writing;

// What was written of a trie: nothing, as it is empty; nothing, as it is a single leaf; or its nodes, up to an end (in the second form, that many nodes).
#[derive(Clone, Copy, Debug, PartialEq, Eq)]
pub enum Emitted {
    Empty,
    Full,
    Node(usize),
}

// Where the trie ends that begins at node o.
pub fn end_of(x: Emitted, o: usize) -> usize
    requires { o < 2 ^ 62 }
    ensures { result ≡ end_of x o }
{
    match x {
        Emitted::Empty => o,
        Emitted::Full => o + 1,
        Emitted::Node(e) => e,
    }
}

// Writes at node i the leaf that an answer left.
pub fn settle(w: &mut [u32], b: usize, i: usize, x: Emitted)
    requires { (1 ≤ i) × (x ≡ Emitted.Full → place b i < length w.old) }
    ensures { w.new ≡ put w.old (place b i) (rest_of x) }
{
    if let Emitted::Full = x {
        writing::store(w, b, i, 0);
    }
}

fn is_full(x: Emitted) -> bool
    ensures { result ≡ is_full x }
{
    matches!(x, Emitted::Full)
}

// Two full halves that are to be joined.
pub fn joins(joined: bool, l: Emitted, r: Emitted) -> bool
    ensures { result ≡ (joined && (is_full l && is_full r)) }
{
    joined && is_full(l) && is_full(r)
}

// The answer of node o by the answers of its children.
pub fn parent(joined: bool, o: usize, l: Emitted, r: Emitted) -> Emitted
    requires { (t : Trie) × (u : Trie) × Both o l r t u }
    ensures { (t u : Trie) → Both o l r t u → result ≡ answer o (glue joined t u) }
{
    let e = end_of(r, end_of(l, o + 1));
    if e == o + 1 {
        return Emitted::Empty;
    }
    if joins(joined, l, r) {
        return Emitted::Full;
    }
    Emitted::Node(e)
}

// Node o over the answers of its children: where it is one, the leaves that they left are written, and its word.
pub fn finish(w: &mut [u32], b: usize, joined: bool, o: usize, l: Emitted, r: Emitted) -> Emitted
    requires { (v : List ℕ) × (t : Trie) × (u : Trie) × Pending v w.old b joined o l r t u }
    ensures { (v : List ℕ) (t u : Trie) → Pending v w.old b joined o l r t u → Emits v w.new b o result (glue joined t u) }
{
    let x = parent(joined, o, l, r);
    match x {
        Emitted::Empty => x,
        Emitted::Full => x,
        Emitted::Node(e) => {
            let m = end_of(l, o + 1);
            settle(w, b, o + 1, l);
            settle(w, b, m, r);
            writing::links(w, b, o, m, e);
            x
        }
    }
}
