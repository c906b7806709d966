// What a set operation makes of two tries in the second form and the inner networks: the operation on the parts of both inside each. The operations are those
// of kept_emit::combining.
ghost use Rattle.std.specs.Prelude.{◌≡◌, not, [], ◌≤◌, ◌<◌, length};
ghost use Rattle.nets.specs.Bits.{Bits};
ghost use Rattle.nets.specs.Networks.{width, bits_left};
ghost use Rattle.nets.specs.Tries.{Trie, is_none, list_of};
ghost use Rattle.inner_nets.specs.Inner.{overlaps_one, is_public};
ghost use Rattle.trie_emit.specs.Combine.{op_on};
ghost use Rattle.kept_emit.specs.Combine.{Inputs};

use crate::standing::inside;
use inner_nets::walks::none_meets;
use kept_emit::combining::{halves, outcome};
use nets::PrefixBits;
use trie_emit::combining::{EMPTY, FULL};

// The result below a string of d bits has a network. The first one that is found ends the search.
fn leaves(
    w: &[u32],
    family: u8,
    b: usize,
    n: u32,
    op: usize,
    a: usize,
    c: usize,
    d: u8,
    fuel: usize,
) -> bool
    requires { (p : Bits) × (t : Trie) × (u : Trie) × (length p ≡ d) × Inputs family w.now b n a c 0 0 p fuel t u }
    ensures { (p : Bits) (t u : Trie) → length p ≡ d → Inputs family w.now b n a c 0 0 p fuel t u → result ≡ not (is_none (op_on op fuel t u)) }
{
    let v = outcome(w, family, b, n, op, a, c, d);
    if v == EMPTY {
        return false;
    }
    if v == FULL {
        return true;
    }
    let p = halves(w, family, b, n, a, c, d, false);
    let q = halves(w, family, b, n, a, c, d, true);
    if leaves(w, family, b, n, op, p.a, p.c, d + 1, fuel - 1) {
        return true;
    }
    leaves(w, family, b, n, op, q.a, q.c, d + 1, fuel - 1)
}

// The result overlaps the network of these bits: the operation leaves something of the parts inside it.
fn meets(
    w: &[u32],
    family: u8,
    b: usize,
    n: u32,
    op: usize,
    a: usize,
    c: usize,
    fuel: usize,
    s: PrefixBits,
) -> bool
    requires len_bound { (s.len ≤ 128) × (s.len < fuel) }
    requires inputs { (t : Trie) × (u : Trie) × Inputs family w.now b n a c 0 0 [] fuel t u }
    ensures { (t u : Trie) → Inputs family w.now b n a c 0 0 [] fuel t u → result ≡ overlaps_one (list_of (op_on op fuel t u)) (bits_left s) }
{
    let x = inside(w, family, b, n, a, s);
    let y = inside(w, family, b, n, c, s);
    leaves(w, family, b, n, op, x, y, s.len, fuel - s.len as usize)
}

// The result overlaps no inner network of the family.
pub fn op_is_clear(
    w: &[u32],
    family: u8,
    b: usize,
    n: u32,
    op: usize,
    first: usize,
    second: usize,
    fuel: usize,
) -> bool
    requires family_bound { width family < fuel }
    requires inputs { (t : Trie) × (u : Trie) × Inputs family w.now b n first second 0 0 [] fuel t u }
    ensures { (t u : Trie) → Inputs family w.now b n first second 0 0 [] fuel t u → result ≡ is_public family (list_of (op_on op fuel t u)) }
{
    none_meets(
        family as u32,
        |s| meets(w, family, b, n, op, first, second, fuel, s),
    )
}
