// A trie from its first word to its last: what a node's word says of what comes next, and the networks of the second children that are still to come, on a stack, three numbers for each.
// Entry n of the stack is the n-th from the bottom; entry 0 is none, so that the last leaf has one to go on with too.
ghost use Rattle.std.specs.Prelude.{◌≡◌, true, cond, ℕ, ◌+◌, ◌*◌, ◌≤◌, ◌<◌, eqb, ltb, length};
ghost use Rattle.nets.specs.Bits.{Bits};
ghost use Rattle.nets.specs.Networks.{width, net_from};
ghost use Rattle.nodes.specs.Words.{put};
ghost use Rattle.trie_paths.specs.Rows.{row_of};
ghost use Rattle.trie_paths.specs.Spans.{snoc};
ghost use Rattle.trie_paths.specs.Preorder.{net_at, Half, Goes};

use crate::halves;
use nets::Net;

// The numbers of a stack: entries 0 to 128.
pub const STACK: usize = 387;

// 1 for the word of a leaf, else 0.
pub fn leaves(x: usize) -> usize
    ensures { result ≡ cond (eqb x 0) 1 0 }
{
    usize::from(x == 0)
}

// 1 for the word of a node with two children, else 0.
pub fn forks(x: usize) -> usize
    ensures { result ≡ cond (ltb 2 x) 1 0 }
{
    usize::from(2 < x)
}

// Writes a network as entry n.
pub fn put_row(rows: &mut [u64], n: usize, x: Net)
    requires { 3 * (n + 1) ≤ length rows.old }
    ensures { rows.new ≡ put rows.old (3 * n) (row_of x) }
{
    let k = 3 * n;
    rows[k] = x.hi;
    rows[k + 1] = x.lo;
    rows[k + 2] = x.len as u64;
}

// The network that entry n is, in the family.
pub fn row_at(rows: &[u64], n: usize, family: u8) -> Net
    requires { 3 * (n + 1) ≤ length rows.now }
    ensures { result ≡ net_at family rows.now n }
{
    let k = 3 * n;
    Net {
        family,
        hi: rows[k],
        lo: rows[k + 1],
        len: (rows[k + 2] % 256) as u8,
    }
}

// The half of x that comes next, by the word of its node, where z is the second half.
fn half(y: usize, x: Net, z: Net) -> Net
    requires { x.len < width x.family }
    ensures { (f : ℕ) (p : Bits) → x ≡ net_from f p → z ≡ net_from f (snoc p true) → Half f p y result }
{
    if y == 2 {
        return z;
    }
    halves::first(x)
}

// From an inner node with the network x and the word y to the next node: answers its network, and has put the second half on the stack as entry n.
pub fn down(y: usize, x: Net, n: usize, stack: &mut [u64]) -> Net
    requires len_bound { (x.len < width x.family) × (3 * (n + 1) ≤ length stack.old) }
    requires by_index { (f : ℕ) × (p : Bits) × (x ≡ net_from f p) }
    ensures { (f : ℕ) (p : Bits) → x ≡ net_from f p → Goes f p y n stack.old stack.new result }
{
    let z = halves::second(x);
    put_row(stack, n, z);
    half(y, x, z)
}
