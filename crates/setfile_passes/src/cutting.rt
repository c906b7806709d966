// Takes away, in place, what a trie will not have any more with the networks of a file in it, or out of it. What is left is among the nodes of the result.
ghost use Rattle.std.specs.Prelude.{List, ◌≡◌, ◌+◌};
ghost use Rattle.nets.specs.Bits.{Bits};
ghost use Rattle.nets.specs.Tries.{Trie, size};
ghost use Rattle.trie_pour.specs.Pour.{flat_t, pour_t, shadow, cut_t};
ghost use Rattle.trie_pour.specs.Parts.{TrieWritten};
ghost use Rattle.setfile_below.specs.Stream.{below, last_of, Comes};
ghost use Rattle.setfile_passes.specs.Passing.{Cuts};

use crate::counting::count;
use setfile_below::{Below, first, is_whole, second};
use setfile_lanes::lanes::CURSORS;
use setfile_order::Head;
use trie_pour::{close, flat, keep, middle};

// Where what is written ends, and the head behind what was read.
#[derive(Clone, Copy)]
pub struct Poured {
    pub end: usize,
    pub head: Head,
}

// Whether a trie from node i up to node e and one of n nodes have both something.
fn both(i: usize, e: usize, n: usize) -> bool
    ensures { (t u : Trie) → e ≡ i + size t → n ≡ size u → flat_t result ≡ shadow t u }
{
    if i == e {
        return false;
    }
    n != 0
}

// A single leaf, if the trie from node i up to node e has something and keeps something.
fn shade(
    w: &mut [u32],
    b: usize,
    i: usize,
    e: usize,
    o: usize,
    into: bool,
    bytes: &[u8],
    cursors: &mut [u64; CURSORS],
    s: Below,
) -> Poured
    requires { (q : Bits) × (p : Bits) × (u : Trie) × (ms : List Bits) × (t : Trie) × Cuts w.old b i e o bytes.now cursors.old s q p u ms t }
    ensures { (q p : Bits) (u : Trie) (ms : List Bits) (t : Trie)
        → Cuts w.old b i e o bytes.now cursors.old s q p u ms t
        → TrieWritten w.old w.new b o result.end (shadow t (pour_t into u t))
        × Comes bytes.now s.family cursors.new result.head (last_of q (below p u)) ms }
{
    let c = count(w, b, i, e, into, bytes, cursors, s);
    let head = c.head;
    let end = flat(w, b, o, both(i, e, c.nodes));
    Poured { end, head }
}

// Writes from node o on what is left of the trie from node i up to node e.
pub fn cut(
    w: &mut [u32],
    b: usize,
    i: usize,
    e: usize,
    o: usize,
    into: bool,
    bytes: &[u8],
    cursors: &mut [u64; CURSORS],
    s: Below,
) -> Poured
    requires { (q : Bits) × (p : Bits) × (u : Trie) × (ms : List Bits) × (t : Trie) × Cuts w.old b i e o bytes.now cursors.old s q p u ms t }
    ensures { (q p : Bits) (u : Trie) (ms : List Bits) (t : Trie)
        → Cuts w.old b i e o bytes.now cursors.old s q p u ms t
        → TrieWritten w.old w.new b o result.end (cut_t into u t)
        × Comes bytes.now s.family cursors.new result.head (last_of q (below p u)) ms }
{
    let head = s.head;
    if !s.some {
        let end = keep(w, b, i, e, o);
        return Poured { end, head };
    }
    let m = middle(w, b, i, e, is_whole(s));
    if m == 0 {
        return shade(w, b, i, e, o, into, bytes, cursors, s);
    }
    let l = cut(w, b, i + 1, m, o + 1, into, bytes, cursors, first(s));
    let k = l.end;
    let h = l.head;
    let r = cut(w, b, m, e, k, into, bytes, cursors, second(s, h));
    let behind = r.head;
    let end = close(w, b, o, k, r.end);
    Poured { end, head: behind }
}
