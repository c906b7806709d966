// Writes what a trie of the second form becomes with the networks of a file in it, or out of it, backward. The trie has been cut, and stands so far before that
// it is read before it is written over.
ghost use Rattle.std.specs.Prelude.{List, ◌≡◌};
ghost use Rattle.nets.specs.Bits.{Bits};
ghost use Rattle.nets.specs.Tries.{Trie};
ghost use Rattle.nets.specs.Networks.{net_from};
ghost use Rattle.trie_pour.specs.Pour.{pour_t};
ghost use Rattle.setfile_below.specs.Stream.{below, last_of, Comes, At};
ghost use Rattle.kept_build.specs.Building.{Grown};
ghost use Rattle.kept_pour.specs.Passing.{Fills};

use crate::parts::{Turn, close, flat, keep, step};
use kept_build::{Built, grow, tally};
use kept_reading::strings::child;
use nets::Net;
use setfile_below::{Below, first, is_whole, second};
use setfile_lanes::lanes::CURSORS;

// Writes what the trie from node i up to node e, below the string of the network path, becomes, so that it ends before node g.
pub fn fill(
    w: &mut [u32],
    b: usize,
    n: u32,
    i: usize,
    e: usize,
    g: usize,
    into: bool,
    bytes: &[u8],
    cursors: &mut [u64; CURSORS],
    s: Below,
    path: Net,
) -> Built
    requires { (q : Bits) × (p : Bits) × (u : Trie) × (ms : List Bits) × (t : Trie) × (path ≡ net_from s.family p)
        × At bytes.now cursors.old s q p u ms × Fills s.family w.old b n i e g into p u t }
    ensures { (q p : Bits) (u : Trie) (ms : List Bits) (t : Trie) → path ≡ net_from s.family p
        → At bytes.now cursors.old s q p u ms
        → Fills s.family w.old b n i e g into p u t
        → Grown s.family w.old w.new b g p (pour_t into u t) result.start
        × Comes bytes.now s.family cursors.new result.head (last_of q (below p u)) ms }
{
    let head = s.head;
    if !s.some {
        let start = keep(w, s.family, b, i, e, g, path);
        return Built { start, head };
    }
    let x = step(w, s.family, b, n, i, e, s.depth, into, is_whole(s));
    match x {
        Turn::Settled => {
            let start = flat(w, s.family, b, g, path, into);
            let r = tally(s.family, head, s.depth, bytes, cursors);
            let behind = r.head;
            Built {
                start,
                head: behind,
            }
        }
        Turn::Fresh => grow(w, s.family, b, g, head, s.depth, bytes, cursors),
        Turn::Halves(a, m, z) => {
            let s0 = first(s);
            let p0 = child(path, false);
            let l = fill(w, b, n, m, z, g, into, bytes, cursors, s0, p0);
            let k = l.start;
            let s1 = second(s, l.head);
            let p1 = child(path, true);
            let r = fill(w, b, n, a, m, k, into, bytes, cursors, s1, p1);
            let behind = r.head;
            let start = close(w, s.family, b, r.start, k, g, path);
            Built {
                start,
                head: behind,
            }
        }
    }
}
