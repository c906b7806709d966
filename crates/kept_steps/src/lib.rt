// A step down a trie of the second form, bit by bit: what is seen of the trie from one node up to another below a string of d bits, which may end in the
// middle of the first node's edge.
ghost use Rattle.std.specs.Prelude.{List, ◌≡◌, ℕ, length};
ghost use Rattle.nets.specs.Bits.{Bits};
ghost use Rattle.nets.specs.Tries.{Trie};
ghost use Rattle.kept_steps.specs.Segments.{KeptSegment, kept_view};

use kept_reading::reading::{head, net_at};
use kept_reading::strings::bit_at;

// Nothing, a member, or two halves: the node where the second begins, or would, and the node where the first begins, or would.
#[derive(Clone, Copy)]
pub enum View {
    Nothing,
    Leaf,
    Inner(usize, usize),
}

// What is seen of the trie from node i up to node e.
pub fn look(w: &[u32], family: u8, b: usize, n: u32, i: usize, e: usize, d: u8) -> View
    requires { (u : ℕ) × (p : Bits) × (t : Trie) × (rest : List ℕ) × KeptSegment family w.now b n i e u p t rest × (length p ≡ d) }
    ensures { (u : ℕ) (p : Bits) (t : Trie) (rest : List ℕ) → KeptSegment family w.now b n i e u p t rest → length p ≡ d
        → result ≡ kept_view i t }
{
    if i == e {
        return View::Nothing;
    }
    let x = head(w, family, b, n, i as u32);
    if x % 256 == d as u32 {
        if x < 256 {
            return View::Leaf;
        }
        return View::Inner(i + 1, i + (x / 256) as usize);
    }
    let s = net_at(w, family, b, n, i as u32);
    if bit_at(s, d) {
        return View::Inner(i, e);
    }
    View::Inner(i, i)
}
