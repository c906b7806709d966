// How many nodes of the second form a trie will have with the networks of a file in it, or out of it. Nothing is written.
ghost use Rattle.std.specs.Prelude.{List, ◌≡◌};
ghost use Rattle.nets.specs.Bits.{Bits};
ghost use Rattle.nets.specs.Tries.{Trie};
ghost use Rattle.branch_points.specs.KeptTries.{kept_size};
ghost use Rattle.trie_pour.specs.Pour.{pour_t};
ghost use Rattle.setfile_below.specs.Stream.{below, last_of, Comes};
ghost use Rattle.kept_pour.specs.Passing.{Counts};

use crate::parts::{Turn, flat_size, nodes_of, nodes_over, step};
use kept_build::{Tallied, tally};
use setfile_below::{Below, first, is_whole, second};
use setfile_lanes::lanes::CURSORS;

// The nodes of what the trie from node i up to node e becomes, and the head behind what was read.
pub fn count(
    w: &[u32],
    b: usize,
    n: u32,
    i: usize,
    e: usize,
    into: bool,
    bytes: &[u8],
    cursors: &mut [u64; CURSORS],
    s: Below,
) -> Tallied
    requires { (q : Bits) × (p : Bits) × (u : Trie) × (ms : List Bits) × (t : Trie) × Counts w.now b n i e into bytes.now cursors.old s q p u ms t }
    ensures { (q p : Bits) (u : Trie) (ms : List Bits) (t : Trie)
        → Counts w.now b n i e into bytes.now cursors.old s q p u ms t
        → (result.nodes ≡ kept_size (pour_t into u t)) × Comes bytes.now s.family cursors.new result.head (last_of q (below p u)) ms }
{
    let head = s.head;
    if !s.some {
        let nodes = nodes_of(i, e);
        return Tallied { nodes, head };
    }
    let x = step(w, s.family, b, n, i, e, s.depth, into, is_whole(s));
    match x {
        Turn::Settled => {
            let nodes = flat_size(into);
            let r = tally(s.family, head, s.depth, bytes, cursors);
            let behind = r.head;
            Tallied {
                nodes,
                head: behind,
            }
        }
        Turn::Fresh => tally(s.family, head, s.depth, bytes, cursors),
        Turn::Halves(a, m, z) => {
            let f = first(s);
            let l = count(w, b, n, m, z, into, bytes, cursors, f);
            let h = l.head;
            let g = second(s, h);
            let r = count(w, b, n, a, m, into, bytes, cursors, g);
            let behind = r.head;
            let nodes = nodes_over(l.nodes, r.nodes);
            Tallied {
                nodes,
                head: behind,
            }
        }
    }
}
