// What is done below a path: what is found of a trie there, a part moved as a block, a full trie or none, and the node over two halves that are written.
ghost use Rattle.std.specs.Prelude.{false, List, ◌≡◌, ℕ, ◌≤◌, ◌<◌, ◌+◌, length};
ghost use Rattle.nets.specs.Bits.{Bits};
ghost use Rattle.nets.specs.Tries.{Trie, glue};
ghost use Rattle.nets.specs.Networks.{width, net_from};
ghost use Rattle.branch_points.specs.KeptTries.{kept_size};
ghost use Rattle.trie_pour.specs.Pour.{flat_t};
ghost use Rattle.kept_build.specs.Building.{Before, Grown};
ghost use Rattle.kept_pour.specs.Parts.{KeptPart, Says, Keeps, Closing};

use kept_steps::{View, look};
use kept_writing::{move_nodes, write_node};
use nets::Net;

// What is found of a trie: all of it becomes full or empty; it is empty, and becomes the networks that come into it; or its halves are gone into, the second
// from a node up to where the first begins, and that up to its end.
#[derive(Clone, Copy)]
pub enum Turn {
    Settled,
    Fresh,
    Halves(usize, usize, usize),
}

// What is found of the trie from node i up to node e, where networks come into it or go out of it; listed says that the path itself, of d bits, is one of them.
pub fn step(
    w: &[u32],
    family: u8,
    b: usize,
    n: u32,
    i: usize,
    e: usize,
    d: usize,
    into: bool,
    listed: bool,
) -> Turn
    requires { (p : Bits) × (t : Trie) × KeptPart family w.now b n p i e t × (length p ≡ d) }
    ensures { (p : Bits) (t : Trie) → KeptPart family w.now b n p i e t → length p ≡ d
        → Says family w.now b n p e into listed t result }
{
    if listed {
        return Turn::Settled;
    }
    if i == 0 {
        if into {
            return Turn::Settled;
        }
        return Turn::Halves(0, 0, 0);
    }
    let v = look(w, family, b, n, i, e, d as u8);
    match v {
        View::Nothing => {
            if into {
                return Turn::Fresh;
            }
            Turn::Settled
        }
        View::Leaf => {
            if into {
                return Turn::Settled;
            }
            Turn::Halves(0, 0, 0)
        }
        View::Inner(a, m) => Turn::Halves(a, m, e),
    }
}

// The nodes of the trie from node i up to node e.
pub fn nodes_of(i: usize, e: usize) -> usize
    requires { (f : ℕ) × (w : List ℕ) × (b : ℕ) × (n : ℕ) × (p : Bits) × (t : Trie) × KeptPart f w b n p i e t }
    ensures { (f : ℕ) (w : List ℕ) (b n : ℕ) (p : Bits) (t : Trie) → KeptPart f w b n p i e t → result ≡ kept_size t }
{
    if i == 0 {
        return 1;
    }
    e - i
}

// The nodes of a full trie, or of none.
pub fn flat_size(full: bool) -> usize
    ensures { result ≡ kept_size (flat_t full) }
{
    usize::from(full)
}

// The nodes over halves of x and y nodes: one more where both have some.
pub fn nodes_over(x: usize, y: usize) -> usize
    requires { x + y < 9223372036854775808 }
    ensures { (l u : Trie) → x ≡ kept_size l → y ≡ kept_size u → result ≡ kept_size (glue false l u) }
{
    if x == 0 {
        return y;
    }
    if y == 0 {
        return x;
    }
    x + y + 1
}

// Writes a full trie before node g, with the string of the network path, or nothing; answers where it begins.
pub fn flat(w: &mut [u32], family: u8, b: usize, g: usize, path: Net, full: bool) -> usize
    requires { Before family w.old b g (kept_size (flat_t full)) }
    ensures { (p : Bits) → path ≡ net_from family p → length p ≤ width family → Grown family w.old w.new b g p (flat_t full) result }
{
    if full {
        write_node(w, family, b, g - 1, path, 0);
        return g - 1;
    }
    g
}

// Moves the trie from node i up to node e so that it ends before node g; answers where it begins there.
pub fn keep(w: &mut [u32], family: u8, b: usize, i: usize, e: usize, g: usize, path: Net) -> usize
    requires { (n : ℕ) × (p : Bits) × (t : Trie) × Keeps family w.old b n p i e g t }
    ensures { (n : ℕ) (p : Bits) (t : Trie) → path ≡ net_from family p → length p ≤ width family → Keeps family w.old b n p i e g t
        → Grown family w.old w.new b g p t result }
{
    if i == 0 {
        return flat(w, family, b, g, path, true);
    }
    let k = e - i;
    let o = g - k;
    if i == o {
        return o;
    }
    move_nodes(w, family, b, i, o, k);
    o
}

// Writes the node over two halves, the second from node o up to node m and the first from there up to node g, where both have nodes; answers where the trie
// begins.
pub fn close(w: &mut [u32], family: u8, b: usize, o: usize, m: usize, g: usize, path: Net) -> usize
    requires { (v : List ℕ) × (p : Bits) × (l : Trie) × (r : Trie) × Closing family v w.old b g p o m l r }
    ensures { (v : List ℕ) (p : Bits) (l r : Trie) → path ≡ net_from family p → length p ≤ width family → Closing family v w.old b g p o m l r
        → Grown family v w.new b g p (glue false l r) result }
{
    if m <= o {
        return o;
    }
    if g <= m {
        return o;
    }
    let i = o - 1;
    write_node(w, family, b, i, path, m - i);
    i
}
