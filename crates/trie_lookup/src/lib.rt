// The walk of a lookup in the first form, down a trie by the bits of the query, one word a level.
ghost use Rattle.std.specs.Prelude.{◌≡◌, ◌+◌, ◌-◌, ◌≤◌, ◌<◌};
ghost use Rattle.nets.specs.Networks.{bits_left};
ghost use Rattle.nets.specs.Tries.{side};
ghost use Rattle.nodes.specs.Parse.{Room};
ghost use Rattle.trie_lookup.specs.Walks.{walk, walk_from};

use nets::{PrefixBits, Refusal};
use nodes::reading::word_at;
use trie_index::turn;

pub mod standing;

// What a path shows: a member of that length, or nothing, each with how many nodes were read; or why there is no answer. Three outcomes, two of them with that
// number: a Result of an Option would hold it in two places.
#[derive(Clone, Copy)]
pub enum Shown {
    Member(u8, u8),
    Nothing(u8),
    Refused(Refusal),
}

// What the path down from the node at place p shows, d bits down, where the nodes 1..=n stand from b on: with every test at every node.
pub fn walk_tested(w: &[u32], b: usize, n: u32, p: usize, above: u8, bits: PrefixBits) -> Shown
    requires { Room w.now b n × (b ≤ p) × (p < b + n) × (bits.len + above ≤ 128) }
    ensures { result ≡ walk w.now b n above (p + 1 - b) (bits_left bits) }
{
    let mut i = (p + 1 - b) as u32;
    let mut d = above;
    let mut left = bits;
    loop {
        let x = word_at(w, b, n, i);
        if x == 0 {
            return Shown::Member(d, d + 1);
        }
        if n < i + x % 2 {
            return Shown::Refused(Refusal::Damaged);
        }
        if n < i + x / 2 {
            return Shown::Refused(Refusal::Damaged);
        }
        let next = left.next();
        match next {
            None => return Shown::Nothing(d + 1),
            Some((bit, later)) => {
                let c = turn(bit, x);
                if c == 0 {
                    return Shown::Nothing(d + 1);
                }
                i += c;
                d += 1;
                left = later;
            }
        }
    }
}

// The word of a node whose one child is on the side of the bit.
fn lone(bit: bool) -> usize
    ensures { result ≡ side bit 1 2 }
{
    if bit {
        return 2;
    }
    1
}

// The place of the child on the side of the bit, where p is the node's and q the second child's.
fn child(bit: bool, p: usize, q: usize) -> usize
    requires { p < q }
    ensures { result ≡ side bit (p + 1) q }
{
    if bit {
        return q;
    }
    p + 1
}

// What the path down from node root shows, where of a query of len bits these are still to come. One test at a node says that both its children are nodes: the
// second, at q, stands before the last. Where that is not so, where a word is of no node, and where the query ends, every test is made. Nodes with one child
// have a branch of their own, so that a processor goes on before it has their words: the child stands right behind.
pub fn walk_down(w: &[u32], b: usize, n: u32, root: u32, len: u8, bits: PrefixBits) -> Shown
    requires { Room w.now b n × (1 ≤ root) × (root ≤ n) × (bits.len ≤ len) × (len ≤ 128) }
    ensures { result ≡ walk w.now b n (len - bits.len) root (bits_left bits) }
{
    let last = b + (n as usize - 1);
    let mut p = b + (root as usize - 1);
    let mut left = bits;
    loop {
        let d = len - left.len;
        let next = left.next();
        match next {
            None => return walk_tested(w, b, n, p, d, left),
            Some((bit, later)) => {
                let x = w[p] as usize;
                let q = p + x / 2;
                if last <= q {
                    return walk_tested(w, b, n, p, d, left);
                }
                if x < 3 {
                    if x == 0 {
                        return Shown::Member(d, d + 1);
                    }
                    if x != lone(bit) {
                        return Shown::Nothing(d + 1);
                    }
                    p += 1;
                } else {
                    if x % 2 == 0 {
                        return walk_tested(w, b, n, p, d, left);
                    }
                    p = child(bit, p, q);
                }
                left = later;
            }
        }
    }
}

// What the path down from the root's number shows.
pub fn walk_from(w: &[u32], b: usize, n: u32, root: u32, bits: PrefixBits) -> Shown
    requires { Room w.now b n × (bits.len ≤ 128) }
    ensures { result ≡ walk_from w.now b n (bits_left bits) root }
{
    if root == 0 {
        return Shown::Nothing(0);
    }
    if n < root {
        return Shown::Refused(Refusal::Damaged);
    }
    walk_down(w, b, n, root, bits.len, bits)
}
