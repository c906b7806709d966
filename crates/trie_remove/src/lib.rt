// Taking a path out of a trie in the used words, in place. Node numbers are usize; a subtree is a pair of numbers, its first node and its end.
#![tactic(auto)]

ghost use Rattle.std.specs.Prelude.{◌≡◌, List, [], ◌∷◌, ℕ, ◌+◌, ◌-◌, ◌*◌, ◌≤◌, ◌<◌, length};
ghost use Rattle.nets.specs.Tries.{Trie, none, leaf, size, side, fork};
ghost use Rattle.nets.specs.TrieOps.{remove_t};
ghost use Rattle.nets.specs.Networks.{bits_left};
ghost use Rattle.nodes.specs.Words.{put, place, enc};
ghost use Rattle.nodes.specs.Links.{linked};
ghost use Rattle.nodes.specs.Segments.{Segment, Spliced};
ghost use Rattle.trie_remove.specs.Removal.{Removable, begin, child_of, above_of, rooted, Says};

use nets::PrefixBits;
use nodes::steps::View;
use nodes::{steps, writing};

// The child on the side of a bit: its first node, its end, and how many nodes the other child has.
#[derive(Clone, Copy)]
struct Child {
    first: usize,
    end: usize,
    others: usize,
}

// What a step down a path finds: nothing that stays, a full block of which a part stays, or a child to go on in with the bits left.
#[derive(Clone, Copy)]
enum Step {
    Nothing,
    Full,
    Inner {
        bit: bool,
        child: Child,
        later: PrefixBits,
    },
}

// The child of node i on the side of the bit, where the first child ends at m and the node at e.
fn child_of(bit: bool, i: usize, m: usize, e: usize) -> Child
    requires { (i < m) × (m ≤ e) }
    ensures { result ≡ child_of bit i m e }
{
    if bit {
        return Child {
            first: m,
            end: e,
            others: m - (i + 1),
        };
    }
    Child {
        first: i + 1,
        end: m,
        others: e - m,
    }
}

// One step down the path s in the trie that stands from node i up to node e.
fn step_down(w: &[u32], b: usize, i: usize, e: usize, s: PrefixBits) -> Step
    requires { (s.len ≤ 128) × ((t : Trie) × (rest : List ℕ) × (u : ℕ) × Segment w.now b i e u t rest) }
    ensures { (t : Trie) (rest : List ℕ) (u : ℕ) → Segment w.now b i e u t rest → Says result s i e t }
{
    let n = s.next();
    match n {
        None => Step::Nothing,
        Some((bit, later)) => {
            let v = steps::look(w, b, i, e);
            match v {
                View::Nothing => Step::Nothing,
                View::Leaf => Step::Full,
                View::Inner(m) => Step::Inner {
                    bit,
                    child: child_of(bit, i, m, e),
                    later,
                },
            }
        }
    }
}

// The nodes of a trie that has n below its root: none where it has none.
fn rooted(n: usize) -> usize
    requires { n < 4294967296 }
    ensures { result ≡ rooted n }
{
    if n == 0 { 0 } else { n + 1 }
}

// How many nodes the trie that stands from node i up to node e has once the path s is out.
pub fn remove_size(w: &[u32], b: usize, i: usize, e: usize, s: PrefixBits) -> usize
    requires { (s.len ≤ 128) × ((t : Trie) × (rest : List ℕ) × (u : ℕ) × Segment w.now b i e u t rest) }
    ensures { (t : Trie) (rest : List ℕ) (u : ℕ) → Segment w.now b i e u t rest → result ≡ size (remove_t (bits_left s) t) }
{
    let n = step_down(w, b, i, e, s);
    match n {
        Step::Nothing => 0,
        Step::Full => 2 * s.len as usize,
        Step::Inner {
            child: c,
            later,
            ..
        } => {
            let k = remove_size(w, b, c.first, c.end, later);
            rooted(k + c.others)
        }
    }
}

// Takes out the nodes from `from` up to e, where the words up to node u are in use.
fn take_out(w: &mut [u32], b: usize, from: usize, e: usize, u: usize) -> usize
    requires { ((1 ≤ from) × (from ≤ e)) × ((i : ℕ) × (t : Trie) × (rest : List ℕ) × Segment w.old b i e u t rest) }
    ensures { (i : ℕ) (t : Trie) (rest : List ℕ) → Segment w.old b i e u t rest → Spliced w.old w.new b from result none rest }
{
    if from == e {
        return from;
    }
    writing::shift(w, b + (e - 1), b + (from - 1), u - e);
    from
}

// Writes node i, with a leaf beside the child of n nodes on the side of the bit; answers where that child is still to be written.
fn halve(w: &mut [u32], b: usize, bit: bool, i: usize, n: usize) -> usize
    requires { ((1 ≤ i) × (i + n < 2147483646)) × (place b i + n + 1 < length w.old) }
    ensures { ((i < result) × (result ≤ i + 2)) × ((x : Trie) → size x ≡ n → put w.new (place b result) (enc x) ≡ put w.old (place b i) (enc (fork bit x leaf))) }
{
    if bit {
        writing::store(w, b, i + 1, 0);
        writing::links(w, b, i, i + 2, i + 2 + n);
        return i + 2;
    }
    writing::store(w, b, i + 1 + n, 0);
    writing::links(w, b, i, i + 1 + n, i + 2 + n);
    i + 1
}

// Writes what is left of a full block without the path s, from node i on: two nodes for each bit.
fn chain(w: &mut [u32], b: usize, i: usize, s: PrefixBits)
    requires { ((1 ≤ i) × (i < 1073741824)) × ((s.len ≤ 128) × (place b i + 2 * s.len ≤ length w.old)) }
    ensures { w.new ≡ put w.old (place b i) (enc (remove_t (bits_left s) leaf)) }
{
    let mut k = i;
    let mut left = s;
    while let Some((bit, later)) = left.next() {
        k = halve(w, b, bit, k, 2 * later.len as usize);
        left = later;
    }
}

// Puts what is left of a full block without the path s in the place of the trie that stands from node i up to node e.
fn split(w: &mut [u32], b: usize, i: usize, e: usize, u: usize, s: PrefixBits) -> usize
    requires { (s.len ≤ 128) × ((t : Trie) × (rest : List ℕ) × Segment w.old b i e u t rest × (b + (u - 1) + 2 * s.len ≤ length w.old + size t)) }
    ensures { (t : Trie) (rest : List ℕ) → Segment w.old b i e u t rest → Spliced w.old w.new b i result (remove_t (bits_left s) leaf) rest }
{
    let n = 2 * s.len as usize;
    writing::shift(w, b + (e - 1), b + (i - 1) + n, u - e);
    chain(w, b, i, s);
    i + n
}

// The first of the nodes that go where nothing is left of the child c.
fn above(from: usize, c: Child) -> usize
    ensures { result ≡ above_of from c }
{
    if c.others == 0 { from } else { c.first }
}

// Links node i anew, whose child c on the side of the bit now ends at y.
fn relink(w: &mut [u32], b: usize, bit: bool, i: usize, c: Child, y: usize) -> usize
    requires { ((1 ≤ i) × (i < c.first)) × (((i < y) × (c.first + c.others < 2147483648)) × ((y < 2147483648) × (place b i < length w.old))) }
    ensures { (result ≡ side bit (y + c.others) y) × (w.new ≡ put w.old (place b i) (linked i (side bit y c.first) result ∷ [])) }
{
    if bit {
        writing::links(w, b, i, c.first, y);
        return y;
    }
    let z = y + c.others;
    writing::links(w, b, i, y, z);
    z
}

// Takes the path s out of the trie that stands from node i up to node e; answers where what is left of it ends. The words up to node u are in use. The nodes from `from` up to i have no
// other child than the one on the way here: where nothing is left of the trie they go with it, and the answer is `from`.
pub fn remove(
    w: &mut [u32],
    b: usize,
    from: usize,
    i: usize,
    e: usize,
    u: usize,
    s: PrefixBits,
) -> usize
    requires { (s.len ≤ 128) × Removable w.old b from i e u (bits_left s) }
    ensures { (t : Trie) (rest : List ℕ) → Segment w.old b i e u t rest
        → Spliced w.old w.new b (begin from i (remove_t (bits_left s) t)) result (remove_t (bits_left s) t) rest }
{
    let n = step_down(w, b, i, e, s);
    match n {
        Step::Nothing => take_out(w, b, from, e, u),
        Step::Full => split(w, b, i, e, u, s),
        Step::Inner {
            bit,
            child: c,
            later,
        } => {
            let y = remove(w, b, above(from, c), c.first, c.end, u, later);
            if y == from {
                return from;
            }
            relink(w, b, bit, i, c, y)
        }
    }
}
