// What a set operation makes of two tries in the words and the inner networks: the operation on the parts of both inside each. The operations and the
// numbers are those of trie_emit::combining.
ghost use Rattle.std.specs.Prelude.{◌≡◌, not, ℕ, ◌≤◌, ◌<◌};
ghost use Rattle.nets.specs.Networks.{width, bits_left};
ghost use Rattle.nets.specs.Tries.{Trie, is_none, list_of};
ghost use Rattle.trie_emit.specs.Combine.{op_on, Inputs};
ghost use Rattle.inner_nets.specs.Inner.{overlaps_one, is_public};

use crate::standing::inside;
use inner_nets::walks::none_meets;
use nets::PrefixBits;
use trie_emit::combining;

// The result has a network. The first one that is found ends the search.
fn leaves(w: &[u32], b: usize, op: usize, a: usize, c: usize, fuel: usize) -> bool
    requires { (t : Trie) × (u : Trie) × Inputs w.now b a c 0 0 fuel t u }
    ensures { (t u : Trie) → Inputs w.now b a c 0 0 fuel t u → result ≡ not (is_none (op_on op fuel t u)) }
{
    let v = combining::outcome(w, b, op, a, c);
    if v == combining::EMPTY {
        return false;
    }
    if v == combining::FULL {
        return true;
    }
    let p = combining::halves(w, b, a, c, false);
    if leaves(w, b, op, p.a, p.c, fuel - 1) {
        return true;
    }
    let q = combining::halves(w, b, a, c, true);
    leaves(w, b, op, q.a, q.c, fuel - 1)
}

// The result overlaps the network of these bits: the operation leaves something of the parts inside it.
fn meets(w: &[u32], b: usize, op: usize, a: usize, c: usize, fuel: usize, s: PrefixBits) -> bool
    requires len_bound { (s.len ≤ 128) × (s.len < fuel) }
    requires inputs { (t : Trie) × (u : Trie) × Inputs w.now b a c 0 0 fuel t u }
    ensures { (t u : Trie) → Inputs w.now b a c 0 0 fuel t u → result ≡ overlaps_one (list_of (op_on op fuel t u)) (bits_left s) }
{
    let x = inside(w, b, a, s);
    let y = inside(w, b, c, s);
    leaves(w, b, op, x, y, fuel - s.len as usize)
}

// The result overlaps no inner network of the family.
pub fn op_is_clear(
    w: &[u32],
    b: usize,
    op: usize,
    first: usize,
    second: usize,
    fuel: usize,
    family: u32,
) -> bool
    requires family_bound { width family < fuel }
    requires inputs { (t : Trie) × (u : Trie) × Inputs w.now b first second 0 0 fuel t u }
    ensures { (t u : Trie) → Inputs w.now b first second 0 0 fuel t u → result ≡ is_public family (list_of (op_on op fuel t u)) }
{
    none_meets(family, |s| meets(w, b, op, first, second, fuel, s))
}
