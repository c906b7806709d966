// Many networks into a trie in words or out of it, in one pass: what is done at a node. A trie is given by two numbers: the node where it stands
// and its end, or 0 and 0 for a full one that stands nowhere. Each function asks in its contract what makes it safe.
#![tactic(auto)]

ghost use Rattle.std.specs.Prelude.{false, List, [], ◌≡◌, ℕ, ◌+◌, ◌<◌};
ghost use Rattle.nets.specs.Tries.{Trie, size, glue};
ghost use Rattle.nodes.specs.Segments.{Segment};
ghost use Rattle.trie_pour.specs.Pour.{flat_t};
ghost use Rattle.trie_pour.specs.Parts.{Part, Says, Into, TrieWritten, Room, Keeps, Closing};

use nodes::steps::View;
use nodes::{steps, writing};

// What is found of a trie: all of it becomes full or empty, or its halves are gone into, of which the first stands up to where the second begins.
#[derive(Clone, Copy)]
pub enum Turn {
    Settled,
    Halves(usize, usize, usize),
}

// What is found of the trie from node i up to node e, where networks come into it or go out of it; whole says that the path itself is one of them.
pub fn step(w: &[u32], b: usize, i: usize, e: usize, into: bool, whole: bool) -> Turn
    requires { (t : Trie) × Part w.now b i e t }
    ensures { (t : Trie) → Part w.now b i e t → Says w.now b i e into whole t result }
{
    if whole {
        return Turn::Settled;
    }
    if i == 0 {
        if into {
            return Turn::Settled;
        }
        return Turn::Halves(0, 0, 0);
    }
    let v = steps::look(w, b, i, e);
    match v {
        View::Nothing => {
            if into {
                return Turn::Halves(i, i, i);
            }
            Turn::Settled
        }
        View::Leaf => {
            if into {
                return Turn::Settled;
            }
            Turn::Halves(0, 0, 0)
        }
        View::Inner(m) => Turn::Halves(i + 1, m, e),
    }
}

// Where the second half of the trie from node i up to node e begins, if the path itself is not listed and the trie is neither empty nor full, else 0.
pub fn middle(w: &[u32], b: usize, i: usize, e: usize, listed: bool) -> usize
    requires { (t : Trie) × Segment w.now b i e e t [] }
    ensures { (t : Trie) → Segment w.now b i e e t [] → Into i listed t result }
{
    if listed {
        return 0;
    }
    let v = steps::look(w, b, i, e);
    match v {
        View::Nothing => 0,
        View::Leaf => 0,
        View::Inner(m) => m,
    }
}

// The nodes of the trie from node i up to node e.
pub fn nodes_of(i: usize, e: usize) -> usize
    requires { (w : List ℕ) × (b : ℕ) × (t : Trie) × Part w b i e t }
    ensures { (w : List ℕ) (b : ℕ) (t : Trie) → Part w b i e t → result ≡ size t }
{
    if i == 0 {
        return 1;
    }
    e - i
}

// The nodes of a full trie, or of none.
pub fn flat_size(full: bool) -> usize
    ensures { result ≡ size (flat_t full) }
{
    usize::from(full)
}

// The nodes over n nodes of two halves: none where they are empty.
pub fn glued_size(n: usize) -> usize
    requires { n < 9223372036854775808 }
    ensures { (l r : Trie) → n ≡ size l + size r → result ≡ size (glue false l r) }
{
    if n == 0 {
        return 0;
    }
    n + 1
}

// Writes a full trie at node o, or nothing; answers where it ends.
pub fn flat(w: &mut [u32], b: usize, o: usize, full: bool) -> usize
    requires { Room w.old b o (size (flat_t full)) }
    ensures { TrieWritten w.old w.new b o result (flat_t full) }
{
    if full {
        writing::store(w, b, o, 0);
        return o + 1;
    }
    o
}

// Moves the trie from node i up to node e to node o; answers where it ends there.
pub fn keep(w: &mut [u32], b: usize, i: usize, e: usize, o: usize) -> usize
    requires { (t : Trie) × Keeps w.old b i e o t }
    ensures { (t : Trie) → Keeps w.old b i e o t → TrieWritten w.old w.new b o result t }
{
    if i == 0 {
        return flat(w, b, o, true);
    }
    if i == e {
        return o;
    }
    if i == o {
        return e;
    }
    writing::shift(w, b + (i - 1), b + (o - 1), e - i);
    o + (e - i)
}

// Writes node o over its halves, of which the first ends at m and the second at e; nothing where both are empty. Answers where it ends.
pub fn close(w: &mut [u32], b: usize, o: usize, m: usize, e: usize) -> usize
    requires { (v : List ℕ) × (l : Trie) × (r : Trie) × Closing v w.old b o m e l r }
    ensures { (v : List ℕ) (l r : Trie) → Closing v w.old b o m e l r → TrieWritten v w.new b o result (glue false l r) }
{
    if e == o + 1 {
        return o;
    }
    writing::links(w, b, o, m, e);
    e
}
