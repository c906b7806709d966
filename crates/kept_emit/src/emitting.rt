// Writing the result of a set operation, lazily and backward: the first half from the end down, then the second half before it, then the node over both if it is a branch point. So no place
// is kept for a node that turns out to have one child only.
ghost use Rattle.std.specs.Prelude.{◌≡◌, ◌&&◌, List, ℕ, ◌+◌, ◌-◌, ◌≤◌, ◌<◌, length};
ghost use Rattle.nets.specs.Bits.{Bits};
ghost use Rattle.nets.specs.Tries.{Trie, glue};
ghost use Rattle.nets.specs.Networks.{width, net_from};
ghost use Rattle.nodes.specs.Words.{put};
ghost use Rattle.kept_nodes.specs.Words.{spot, stride};
ghost use Rattle.kept_emit.specs.Answers.{answer, Emits, size_of, rest_of, Both, Pending, top_words};

use kept_reading::strings::child;
use kept_writing::write_node;
use nets::Net;
use trie_emit::emitting::{Emitted, joins};

// How many nodes the trie has.
pub fn size_of(x: Emitted) -> usize
    ensures { result ≡ size_of x }
{
    match x {
        Emitted::Empty => 0,
        Emitted::Full => 1,
        Emitted::Node(k) => k,
    }
}

// The answer of a node by the answers of its children.
pub fn answer_over(joined: bool, l: Emitted, r: Emitted) -> Emitted
    requires { (t : Trie) × (u : Trie) × Both l r t u }
    ensures { (t u : Trie) → Both l r t u → result ≡ answer (glue joined t u) }
{
    let x = size_of(l);
    let y = size_of(r);
    if x + y == 0 {
        return Emitted::Empty;
    }
    if joins(joined, l, r) {
        return Emitted::Full;
    }
    if x == 0 {
        return Emitted::Node(y);
    }
    if y == 0 {
        return Emitted::Node(x);
    }
    Emitted::Node(1 + x + y)
}

// Writes at node i the leaf that an answer left.
pub fn settle(w: &mut [u32], family: u8, b: usize, i: usize, s: Net, x: Emitted)
    requires { (x ≡ Emitted.Full → (1 ≤ i) × (spot family b i + stride family ≤ length w.old)) × ((i < 1073741824) × (b < 1073741824)) }
    ensures { (p : Bits) → s ≡ net_from family p → length p ≤ width family → w.new ≡ put w.old (spot family b i) (rest_of family p x) }
{
    if let Emitted::Full = x {
        write_node(w, family, b, i, s, 0);
    }
}

// Writes the node over two tries that begin at o and m, of which the one at m ends before e, where both have nodes.
fn top(w: &mut [u32], family: u8, b: usize, o: usize, m: usize, e: usize, s: Net)
    requires { (o < m → m < e → (1 < o) × (spot family b (o - 1) + stride family ≤ length w.old)) × ((o ≤ m) × ((m ≤ e) × ((e ≤ 4194305) × (b < 1073741824)))) }
    ensures { (p : Bits) → s ≡ net_from family p → length p ≤ width family → w.new ≡ put w.old (spot family b (o - 1)) (top_words family p o m e) }
{
    if m <= o {
        return;
    }
    if e <= m {
        return;
    }
    write_node(w, family, b, o - 1, s, m - (o - 1));
}

// The trie over the answers of its halves: where it is more than a leaf, the leaves that they left are written, and its node, if it is a branch point.
pub fn finish(
    w: &mut [u32],
    family: u8,
    b: usize,
    joined: bool,
    e: usize,
    l: Emitted,
    r: Emitted,
    path: Net,
) -> Emitted
    requires { (v : List ℕ) × (p : Bits) × (t : Trie) × (u : Trie) × (path ≡ net_from family p) × Pending family v w.old b joined p e l r t u }
    ensures { (v : List ℕ) (p : Bits) (t u : Trie) → path ≡ net_from family p → Pending family v w.old b joined p e l r t u → Emits family v w.new b p e result (glue joined t u) }
{
    let x = answer_over(joined, l, r);
    match x {
        Emitted::Empty => x,
        Emitted::Full => x,
        Emitted::Node(_) => {
            let m = e.saturating_sub(size_of(l));
            let o = m.saturating_sub(size_of(r));
            let first = child(path, false);
            settle(w, family, b, m, first, l);
            let second = child(path, true);
            settle(w, family, b, o, second, r);
            top(w, family, b, o, m, e, path);
            x
        }
    }
}
