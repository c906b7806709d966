// What a change writes in the place of the trie from node i up to node e, where the words up to node u are in use: what stands behind the trie is moved with
// it. Each function answers where the trie now ends.
ghost use Rattle.std.specs.Prelude.{List, ◌≡◌, ℕ, ◌+◌, ◌-◌, ◌≤◌, length};
ghost use Rattle.nets.specs.Bits.{Bits};
ghost use Rattle.nets.specs.Networks.{width, net_from};
ghost use Rattle.nets.specs.Tries.{Trie, side};
ghost use Rattle.branch_points.specs.KeptTries.{kept_size};
ghost use Rattle.kept_acts.specs.Acts.{Acts, Halves, Became, fork_words, drop_words, drop_size, flat_size, relink_end, relinked, Relinks};
ghost use Rattle.kept_plan.specs.Change.{flat_words};

use kept_writing::{move_nodes, write_node};
use nets::Net;

// Puts the network q alone in the place of the trie, or nothing.
pub fn flat(
    w: &mut [u32],
    family: u8,
    b: usize,
    i: usize,
    e: usize,
    u: usize,
    q: Net,
    into: bool,
) -> usize
    requires { (n : ℕ) × (p : Bits) × (s : Bits) × (t : Trie) × (rest : List ℕ) × (q ≡ net_from family s)
        × Acts family w.old b n i e u p s t rest (flat_size into) }
    ensures { (n : ℕ) (p s : Bits) (t : Trie) (rest : List ℕ) → q ≡ net_from family s → Acts family w.old b n i e u p s t rest (flat_size into)
        → Became family w.old w.new b i result (flat_words into family s) (flat_size into) rest }
{
    if into {
        move_nodes(w, family, b, e, i + 1, u - e);
        write_node(w, family, b, i, q, 0);
        return i + 1;
    }
    move_nodes(w, family, b, e, i, u - e);
    i
}

// Below a new branch point, in the place of the trie from node i up to node e: where that trie begins, where a network beside it stands, on the side of the bit,
// and the distance to the first half of the two.
#[derive(Clone, Copy)]
struct Sides {
    trie: usize,
    alone: usize,
    first: usize,
}

fn beside(bit: bool, i: usize, e: usize) -> Sides
    requires { (i ≤ e) × (e ≤ 4194304) }
    ensures { (result.trie ≡ side bit (i + 1) (i + 2)) × (result.alone ≡ side bit (e + 1) (i + 1)) × (result.first ≡ side bit (e - i + 1) 2) }
{
    if bit {
        return Sides {
            trie: i + 2,
            alone: i + 1,
            first: 2,
        };
    }
    Sides {
        trie: i + 1,
        alone: e + 1,
        first: e - i + 1,
    }
}

// Puts the network q beside the trie, on the side of the bit, below a branch point with the string of the network path.
pub fn fork(
    w: &mut [u32],
    family: u8,
    b: usize,
    i: usize,
    e: usize,
    u: usize,
    path: Net,
    q: Net,
    bit: bool,
) -> usize
    requires { (n : ℕ) × (p : Bits) × (s : Bits) × (t : Trie) × (rest : List ℕ) × (path ≡ net_from family p) × (q ≡ net_from family s)
        × Acts family w.old b n i e u p s t rest (kept_size t + 2) }
    ensures { (n : ℕ) (p s : Bits) (t : Trie) (rest : List ℕ) → path ≡ net_from family p → q ≡ net_from family s
        → Acts family w.old b n i e u p s t rest (kept_size t + 2)
        → Became family w.old w.new b i result (fork_words bit family p s t) (kept_size t + 2) rest }
{
    let h = beside(bit, i, e);
    move_nodes(w, family, b, e, e + 2, u - e);
    move_nodes(w, family, b, i, h.trie, e - i);
    write_node(w, family, b, i, path, h.first);
    write_node(w, family, b, h.alone, q, 0);
    e + 2
}

// Takes out the half on the side of the bit and the branch point over it, node i, whose first half begins at node m.
pub fn drop_half(
    w: &mut [u32],
    family: u8,
    b: usize,
    i: usize,
    m: usize,
    e: usize,
    u: usize,
    bit: bool,
) -> usize
    requires { (n : ℕ) × (p : Bits) × (l : Trie) × (r : Trie) × (rest : List ℕ) × Halves family w.old b n i m e u p l r rest }
    ensures { (n : ℕ) (p : Bits) (l r : Trie) (rest : List ℕ) → Halves family w.old b n i m e u p l r rest
        → Became family w.old w.new b i result (drop_words bit family p l r) (drop_size bit l r) rest }
{
    if bit {
        move_nodes(w, family, b, m, i, u - m);
        return i + (e - m);
    }
    move_nodes(w, family, b, i + 1, i, m - (i + 1));
    move_nodes(w, family, b, e, m - 1, u - e);
    m - 1
}

// Leads node i, a branch point with the string of the network path, to its first half anew, where a half on the side of the bit now ends at z and the trie
// ended at node e. Where the trie has one half only (its second half begins at node i, or would) there is no such node.
pub fn relink(
    w: &mut [u32],
    family: u8,
    b: usize,
    i: usize,
    a: usize,
    m: usize,
    e: usize,
    z: usize,
    bit: bool,
    path: Net,
) -> usize
    requires { Relinks family w.old b i a m e z bit }
    ensures { (result ≡ relink_end bit a i m e z) × ((p : Bits) → path ≡ net_from family p → length p ≤ width family
        → w.new ≡ relinked family w.old b i a z bit p) }
{
    if !bit {
        return z;
    }
    if a == i {
        return z;
    }
    write_node(w, family, b, i, path, z - i);
    z + (e - m)
}
