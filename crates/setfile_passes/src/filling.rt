// Writes what a trie becomes with the networks of a file in it, or out of it. The trie has been cut, and stands so far behind that it is read before
// it is written over.
ghost use Rattle.std.specs.Prelude.{List};
ghost use Rattle.nets.specs.Bits.{Bits};
ghost use Rattle.nets.specs.Tries.{Trie};
ghost use Rattle.trie_pour.specs.Pour.{pour_t};
ghost use Rattle.trie_pour.specs.Parts.{TrieWritten};
ghost use Rattle.setfile_below.specs.Stream.{below, last_of, Comes, At};
ghost use Rattle.setfile_passes.specs.Passing.{Fills};

use crate::cutting::Poured;
use setfile_below::{Below, first, is_whole, pass, second};
use setfile_lanes::lanes::CURSORS;
use trie_pour::{Turn, close, flat, keep, step};

// Writes from node o on what the trie from node i up to node e becomes.
pub fn fill(
    w: &mut [u32],
    b: usize,
    i: usize,
    e: usize,
    o: usize,
    into: bool,
    bytes: &[u8],
    cursors: &mut [u64; CURSORS],
    s: Below,
) -> Poured
    requires { (q : Bits) × (p : Bits) × (u : Trie) × (ms : List Bits) × (t : Trie)
        × At bytes.now cursors.old s q p u ms × Fills w.old b i e o into u t }
    ensures { (q p : Bits) (u : Trie) (ms : List Bits) (t : Trie) → At bytes.now cursors.old s q p u ms
        → Fills w.old b i e o into u t
        → TrieWritten w.old w.new b o result.end (pour_t into u t)
        × Comes bytes.now s.family cursors.new result.head (last_of q (below p u)) ms }
{
    let head = s.head;
    if !s.some {
        let end = keep(w, b, i, e, o);
        return Poured { end, head };
    }
    let x = step(w, b, i, e, into, is_whole(s));
    match x {
        Turn::Settled => {
            let end = flat(w, b, o, into);
            let behind = pass(bytes, cursors, s);
            Poured { end, head: behind }
        }
        Turn::Halves(a, m, z) => {
            let l = fill(w, b, a, m, o + 1, into, bytes, cursors, first(s));
            let k = l.end;
            let h = l.head;
            let r = fill(w, b, m, z, k, into, bytes, cursors, second(s, h));
            let behind = r.head;
            let end = close(w, b, o, k, r.end);
            Poured { end, head: behind }
        }
    }
}
