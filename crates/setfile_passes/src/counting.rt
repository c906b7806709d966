// How many nodes a trie will have with the networks of a file in it, or out of it. Nothing is written.
ghost use Rattle.std.specs.Prelude.{List, ◌≡◌};
ghost use Rattle.nets.specs.Bits.{Bits};
ghost use Rattle.nets.specs.Tries.{Trie, size};
ghost use Rattle.trie_pour.specs.Pour.{pour_t};
ghost use Rattle.setfile_below.specs.Stream.{below, last_of, Comes};
ghost use Rattle.setfile_passes.specs.Passing.{Counts};

use setfile_below::{Below, first, is_whole, pass, second};
use setfile_lanes::lanes::CURSORS;
use setfile_order::Head;
use trie_pour::{Turn, flat_size, glued_size, nodes_of, step};

// How many nodes, and the head behind what was read.
#[derive(Clone, Copy)]
pub struct Counted {
    pub nodes: usize,
    pub head: Head,
}

// The nodes of what the trie from node i up to node e becomes.
pub fn count(
    w: &[u32],
    b: usize,
    i: usize,
    e: usize,
    into: bool,
    bytes: &[u8],
    cursors: &mut [u64; CURSORS],
    s: Below,
) -> Counted
    requires { (q : Bits) × (p : Bits) × (u : Trie) × (ms : List Bits) × (t : Trie) × Counts w.now b i e bytes.now cursors.old s q p u ms t }
    ensures { (q p : Bits) (u : Trie) (ms : List Bits) (t : Trie)
        → Counts w.now b i e bytes.now cursors.old s q p u ms t
        → (result.nodes ≡ size (pour_t into u t)) × Comes bytes.now s.family cursors.new result.head (last_of q (below p u)) ms }
{
    let head = s.head;
    if !s.some {
        let nodes = nodes_of(i, e);
        return Counted { nodes, head };
    }
    let x = step(w, b, i, e, into, is_whole(s));
    match x {
        Turn::Settled => {
            let nodes = flat_size(into);
            let behind = pass(bytes, cursors, s);
            Counted {
                nodes,
                head: behind,
            }
        }
        Turn::Halves(a, m, z) => {
            let f = first(s);
            let l = count(w, b, a, m, into, bytes, cursors, f);
            let h = l.head;
            let g = second(s, h);
            let r = count(w, b, m, z, into, bytes, cursors, g);
            let behind = r.head;
            let nodes = glued_size(l.nodes + r.nodes);
            Counted {
                nodes,
                head: behind,
            }
        }
    }
}
