// What is left of a trie of the second form, beside the networks of a file: marked, then moved to the low end of its place.
ghost use Rattle.std.specs.Prelude.{false, List, [], ◌≡◌};
ghost use Rattle.nets.specs.Bits.{Bits};
ghost use Rattle.nets.specs.Tries.{Trie, none, leaf, is_none};
ghost use Rattle.trie_pour.specs.Pour.{pour_t, shadow};
ghost use Rattle.setfile_below.specs.Stream.{below, last_of, Under, Comes};
ghost use Rattle.kept_steps.specs.Segments.{KeptSegment, KeptSpliced};
ghost use Rattle.kept_sieve.specs.Spare.{spare_t};
ghost use Rattle.kept_cut.specs.Cuts.{Cuts, Left, Sighted};

use crate::marks::{drop_all, settle};
use kept_sieve::sieve;
use kept_steps::{View, look};
use setfile_below::{Below, first, is_whole, pass, second};
use setfile_lanes::lanes::CURSORS;
use setfile_order::Head;
use setfile_passes::counting::count;
use setfile_passes::cutting::Poured;

// Whether anything is left, and the head behind what was read.
#[derive(Clone, Copy)]
pub struct Marked {
    pub rest: bool,
    pub head: Head,
}

// What is to be seen of the trie from node i up to node e: nothing of it is left where a network is the path itself.
fn sight(w: &[u32], b: usize, n: u32, i: usize, e: usize, s: Below) -> View
    requires { (q : Bits) × (p : Bits) × (u : Trie) × (ms : List Bits) × (t : Trie) × KeptSegment s.family w.now b n i e e p t [] × Under s q p u ms
        × (is_none u ≡ false) }
    ensures { (q p : Bits) (u : Trie) (ms : List Bits) (t : Trie) → KeptSegment s.family w.now b n i e e p t [] → Under s q p u ms
        → is_none u ≡ false → Sighted i u t result }
{
    if is_whole(s) {
        return View::Nothing;
    }
    look(w, s.family, b, n, i, e, s.depth as u8)
}

// Marks the trie from node i up to node e, of which nothing is left, and passes what is below the path.
fn away(
    w: &mut [u32],
    b: usize,
    n: u32,
    i: usize,
    e: usize,
    bytes: &[u8],
    cursors: &mut [u64; CURSORS],
    s: Below,
) -> Marked
    requires { (q : Bits) × (p : Bits) × (u : Trie) × (ms : List Bits) × (t : Trie) × Cuts w.old b n i e bytes.now cursors.old s q p u ms t }
    ensures { (q p : Bits) (u : Trie) (ms : List Bits) (t : Trie) → Cuts w.old b n i e bytes.now cursors.old s q p u ms t
        → Left s.family w.old w.new b i p t none result.rest
        × Comes bytes.now s.family cursors.new result.head (last_of q (below p u)) ms }
{
    drop_all(w, s.family, b, n, i, e);
    let head = pass(bytes, cursors, s);
    Marked { rest: false, head }
}

// Marks the member i, where nothing is left of it.
fn member(
    w: &mut [u32],
    b: usize,
    n: u32,
    i: usize,
    e: usize,
    into: bool,
    bytes: &[u8],
    cursors: &mut [u64; CURSORS],
    s: Below,
) -> Marked
    requires { (q : Bits) × (p : Bits) × (u : Trie) × (ms : List Bits) × Cuts w.old b n i e bytes.now cursors.old s q p u ms leaf }
    ensures { (q p : Bits) (u : Trie) (ms : List Bits) → Cuts w.old b n i e bytes.now cursors.old s q p u ms leaf
        → Left s.family w.old w.new b i p leaf (shadow leaf (pour_t into u leaf)) result.rest
        × Comes bytes.now s.family cursors.new result.head (last_of q (below p u)) ms }
{
    let c = count(w, b, 0, 0, into, bytes, cursors, s);
    let head = c.head;
    if c.nodes == 0 {
        drop_all(w, s.family, b, n, i, e);
        return Marked { rest: false, head };
    }
    Marked { rest: true, head }
}

// Marks what is gone of the trie from node i up to node e.
pub fn mark(
    w: &mut [u32],
    b: usize,
    n: u32,
    i: usize,
    e: usize,
    into: bool,
    bytes: &[u8],
    cursors: &mut [u64; CURSORS],
    s: Below,
) -> Marked
    requires { (q : Bits) × (p : Bits) × (u : Trie) × (ms : List Bits) × (t : Trie) × Cuts w.old b n i e bytes.now cursors.old s q p u ms t }
    ensures { (q p : Bits) (u : Trie) (ms : List Bits) (t : Trie) → Cuts w.old b n i e bytes.now cursors.old s q p u ms t
        → Left s.family w.old w.new b i p t (spare_t into u t) result.rest
        × Comes bytes.now s.family cursors.new result.head (last_of q (below p u)) ms }
{
    let head = s.head;
    if !s.some {
        let rest = i != e;
        return Marked { rest, head };
    }
    let v = sight(w, b, n, i, e, s);
    match v {
        View::Nothing => away(w, b, n, i, e, bytes, cursors, s),
        View::Leaf => member(w, b, n, i, e, into, bytes, cursors, s),
        View::Inner(a, m) => {
            let l = mark(w, b, n, m, e, into, bytes, cursors, first(s));
            let h = l.head;
            let r = mark(w, b, n, a, m, into, bytes, cursors, second(s, h));
            let behind = r.head;
            let rest = settle(w, s.family, b, n, i, a, m, l.rest, r.rest);
            Marked { rest, head: behind }
        }
    }
}

// Leaves of the trie from node i up to node e what pouring the networks below the path needs. Answers where it ends.
pub fn cut(
    w: &mut [u32],
    b: usize,
    n: u32,
    i: usize,
    e: usize,
    into: bool,
    bytes: &[u8],
    cursors: &mut [u64; CURSORS],
    s: Below,
) -> Poured
    requires { (q : Bits) × (p : Bits) × (u : Trie) × (ms : List Bits) × (t : Trie) × Cuts w.old b n i e bytes.now cursors.old s q p u ms t }
    ensures { (q p : Bits) (u : Trie) (ms : List Bits) (t : Trie) → Cuts w.old b n i e bytes.now cursors.old s q p u ms t
        → KeptSpliced s.family w.old w.new b i result.end p (spare_t into u t) []
        × Comes bytes.now s.family cursors.new result.head (last_of q (below p u)) ms }
{
    let m = mark(w, b, n, i, e, into, bytes, cursors, s);
    let head = m.head;
    if i == e {
        return Poured { end: e, head };
    }
    let end = sieve(w, s.family, b, n, i, e, i);
    Poured { end, head }
}
