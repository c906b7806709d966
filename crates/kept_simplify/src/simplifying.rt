// Joins the halves of each block of a trie in the second form, in place. Only the branch points over a join are gone down to, and the parts between them are
// moved as blocks. What the trie is simplified to is written from node o on, never ahead of what is read; a trie of one node is written only when it is known
// that it does not join, so that no word behind the result is touched.
ghost use Rattle.std.specs.Prelude.{true, ◌&&◌, List, ◌≡◌, ℕ, ◌+◌, ◌*◌, ◌≤◌, ◌<◌, eqb, length};
ghost use Rattle.nets.specs.Bits.{Bits};
ghost use Rattle.nets.specs.Networks.{width, net_from};
ghost use Rattle.nets.specs.Tries.{Trie, glue, simplify_t};
ghost use Rattle.nodes.specs.Words.{put, Has};
ghost use Rattle.branch_points.specs.KeptTries.{kept_size};
ghost use Rattle.kept_nodes.specs.Words.{stride, kept_enc, spot};
ghost use Rattle.kept_nodes.specs.Parse.{KeptRoom, KeptStands, dist_at};
ghost use Rattle.kept_reading.specs.NodeStrings.{ReadAs};
ghost use Rattle.kept_writing.specs.Writes.{Movable};
ghost use Rattle.kept_simplify.specs.Joins.{Apart};
ghost use Rattle.kept_simplify.specs.Shrinks.{rest_of, Source, Shrinks, Pending};

use crate::joining::{join_from, next_join};
use kept_reading::reading::{distance, net_at};
use kept_writing::{move_nodes, write_node};
use nets::Net;

// Whether a half below the string s is full: k nodes are one, and its string x has one bit more.
fn is_full(s: Net, x: Net, k: usize) -> bool
    requires { s.len ≤ 128 }
    ensures { result ≡ (eqb k 1 && eqb x.len (s.len + 1)) }
{
    k == 1 && x.len == s.len + 1
}

// Whether both halves below the string s are full, the second of m nodes and the first of k; x and y are the strings of their first nodes.
fn joins(s: Net, x: Net, y: Net, m: usize, k: usize) -> bool
    requires { s.len ≤ 128 }
    ensures { result ≡ ((eqb m 1 && eqb x.len (s.len + 1)) && (eqb k 1 && eqb y.len (s.len + 1))) }
{
    is_full(s, x, m) && is_full(s, y, k)
}

// Writes node i with the string s, where k nodes are one.
fn settle(w: &mut [u32], family: u8, b: usize, i: usize, s: Net, k: usize)
    requires { (1 ≤ i) × (i < 1073741824) × (b < 1073741824) × (k ≡ 1 → spot family b i + stride family ≤ length w.old) }
    ensures { (p : Bits) → s ≡ net_from family p → length p ≤ width family
        → w.new ≡ put w.old (spot family b i) (rest_of family p k) }
{
    if k == 1 {
        write_node(w, family, b, i, s, 0);
    }
}

// Writes node o with the string s over its halves, the second of m nodes and the first of k; x and y are the strings of their first nodes. Answers the nodes
// of all.
fn write_over(
    w: &mut [u32],
    family: u8,
    b: usize,
    o: usize,
    s: Net,
    x: Net,
    y: Net,
    m: usize,
    k: usize,
) -> usize
    requires { (v : List ℕ) × (p : Bits) × (l : Trie) × (r : Trie) × Pending family v w.old b o p s x y m k l r }
    ensures { (v : List ℕ) (p : Bits) (l r : Trie) → Pending family v w.old b o p s x y m k l r
        → Shrinks family v w.new b o result p (glue true l r) }
{
    if joins(s, x, y, m, k) {
        return 1;
    }
    settle(w, family, b, o + 1, x, m);
    settle(w, family, b, o + 1 + m, y, k);
    write_node(w, family, b, o, s, 1 + m);
    1 + m + k
}

// Moves a part in which nothing joins, k nodes from node i on, to node o.
fn block(w: &mut [u32], family: u8, b: usize, i: usize, o: usize, k: usize)
    requires { Movable family w.old b i o k }
    ensures { (xs : List ℕ) → Has w.old (spot family b i) xs → length xs ≡ stride family * k
        → w.new ≡ put w.old (spot family b o) xs }
{
    if i != o {
        move_nodes(w, family, b, i, o, k);
    }
}

// A branch point: its string, the node where its first half begins, and the string of the first node of its second half.
#[derive(Clone, Copy)]
struct Fork {
    path: Net,
    middle: usize,
    second: Net,
}

fn fork_at(w: &[u32], family: u8, b: usize, n: u32, i: usize) -> Fork
    requires { KeptRoom family w.now b n × (1 ≤ i) × (i + 1 ≤ n) }
    ensures { ReadAs family w.now b i result.path × ((result.middle ≡ i + dist_at family w.now b i)
        × ReadAs family w.now b (i + 1) result.second) }
{
    let d = distance(w, family, b, n, i as u32);
    Fork {
        path: net_at(w, family, b, n, i as u32),
        middle: i + d as usize,
        second: net_at(w, family, b, n, (i + 1) as u32),
    }
}

// Reads the trie that stands from node i up to node e and writes what it is simplified to from node o on; before node `next` nothing joins. Answers its nodes.
fn shrink(
    w: &mut [u32],
    family: u8,
    b: usize,
    n: u32,
    i: usize,
    e: usize,
    o: usize,
    next: usize,
) -> usize
    requires { ((p : Bits) × (t : Trie) × Source family w.old b n i e o p t) × Apart family w.old b i e next }
    ensures { (p : Bits) (t : Trie) → Source family w.old b n i e o p t
        → Shrinks family w.old w.new b o result p (simplify_t t) }
{
    let k = e - i;
    if k == 1 {
        return 1;
    }
    if e <= next {
        block(w, family, b, i, o, k);
        return k;
    }
    let h = fork_at(w, family, b, n, i);
    let r = shrink(w, family, b, n, i + 1, h.middle, o + 1, next);
    let first = net_at(w, family, b, n, h.middle as u32);
    let after = join_from(w, family, b, n, h.middle, e, next);
    let l = shrink(w, family, b, n, h.middle, e, o + 1 + r, after);
    write_over(w, family, b, o, h.path, h.second, first, r, l)
}

// Simplifies the trie that stands from node i up to node e, where it stands, and answers its nodes. The words behind these stay as they are.
pub fn simplify(w: &mut [u32], family: u8, b: usize, n: u32, i: usize, e: usize) -> usize
    requires { KeptRoom family w.old b n × (1 ≤ i) × ((p : Bits) × (t : Trie) × KeptStands family w.old b n p i t × (e ≡ i + kept_size t)) }
    ensures { (p : Bits) (t : Trie) → KeptStands family w.old b n p i t → e ≡ i + kept_size t
        → (result ≡ kept_size (simplify_t t)) × (w.new ≡ put w.old (spot family b i) (kept_enc family p (simplify_t t))) }
{
    if i == e {
        return 0;
    }
    let s = net_at(w, family, b, n, i as u32);
    let next = next_join(w, family, b, n, i, e);
    let k = shrink(w, family, b, n, i, e, i, next);
    settle(w, family, b, i, s, k);
    k
}
