// What is left of a trie of the second form, moved to the low end of its place. A mark in the head of a node, bit 31, says that nothing is left of the trie
// that begins there. The nodes are gone through forward: what is left of the second half, then of the first, each behind what is before it; a branch point
// that has lost a half is left out, and each mark that is met is taken away.
#![tactic(auto)]

ghost use Rattle.std.specs.Prelude.{[], ◌∷◌, ◌≡◌, ◌+◌, ◌-◌, ◌≤◌, ◌<◌, length};
ghost use Rattle.nets.specs.Bits.{Bits};
ghost use Rattle.nets.specs.Networks.{width, net_from};
ghost use Rattle.nets.specs.Tries.{Trie};
ghost use Rattle.nodes.specs.Words.{put};
ghost use Rattle.kept_nodes.specs.Words.{spot};
ghost use Rattle.kept_nodes.specs.Parse.{KeptRoom, head_at};
ghost use Rattle.kept_sieve.specs.Marks.{mark_bit, top_size, Sieves, Sieved, link_words, Links};

use kept_reading::reading::{head, net_at};
use kept_writing::{move_nodes, write_node};
use nets::{IPV4, Net};

// The mark, in the head of a node.
const MARK: u32 = 2147483648;

// Writes the head of node i.
fn store_head(w: &mut [u32], family: u8, b: usize, n: u32, i: usize, x: u32)
    requires { KeptRoom family w.old b n × (1 ≤ i) × (i ≤ n) }
    ensures { w.new ≡ put w.old (spot family b i) (x ∷ []) }
{
    if family == IPV4 {
        w[b + 2 * (i - 1)] = x;
    } else {
        w[b + 5 * (i - 1)] = x;
    }
}

// Puts the mark on node i.
pub fn set_mark(w: &mut [u32], family: u8, b: usize, n: u32, i: usize)
    requires { KeptRoom family w.old b n × (1 ≤ i) × (i ≤ n) × (head_at family w.old b i < mark_bit) }
    ensures { w.new ≡ put w.old (spot family b i) ((head_at family w.old b i + mark_bit) ∷ []) }
{
    let x = head(w, family, b, n, i as u32);
    store_head(w, family, b, n, i, x + MARK);
}

// Takes the mark from node i.
pub fn clear_mark(w: &mut [u32], family: u8, b: usize, n: u32, i: usize)
    requires { KeptRoom family w.old b n × (1 ≤ i) × (i ≤ n) × (mark_bit ≤ head_at family w.old b i) }
    ensures { w.new ≡ put w.old (spot family b i) ((head_at family w.old b i - mark_bit) ∷ []) }
{
    let x = head(w, family, b, n, i as u32);
    store_head(w, family, b, n, i, x - MARK);
}

// How many nodes are left of the branch point over the nodes i and m: it is left where neither has a mark.
fn own_size(w: &[u32], family: u8, b: usize, n: u32, i: usize, m: usize) -> usize
    requires { KeptRoom family w.now b n × (1 ≤ i) × (i ≤ n) × (1 ≤ m) × (m ≤ n) }
    ensures { result ≡ top_size (head_at family w.now b i) (head_at family w.now b m) }
{
    if MARK <= head(w, family, b, n, i as u32) {
        return 0;
    }
    if MARK <= head(w, family, b, n, m as u32) {
        return 0;
    }
    1
}

// Writes the branch point with the string s at node o, its first half being at node k. Where its second half is not behind that node, there is no branch point.
fn link(w: &mut [u32], family: u8, b: usize, o: usize, from: usize, k: usize, s: Net)
    requires { Links family w.old b o from k }
    ensures { (p : Bits) → s ≡ net_from family p → length p ≤ width family
        → w.new ≡ put w.old (spot family b o) (link_words family p o from k) }
{
    if from == o {
        return;
    }
    write_node(w, family, b, o, s, k - o);
}

// Moves what is left of the trie from node i up to node e to node o. Answers where it ends.
pub fn sieve(w: &mut [u32], family: u8, b: usize, n: u32, i: usize, e: usize, o: usize) -> usize
    requires { (p : Bits) × (t : Trie) × (s : Trie) × Sieves family w.old b n i e o p t s }
    ensures { (p : Bits) (t s : Trie) → Sieves family w.old b n i e o p t s
        → Sieved family w.old w.new b i o result p t s }
{
    let x = head(w, family, b, n, i as u32);
    if MARK <= x {
        clear_mark(w, family, b, n, i);
        return o;
    }
    if x < 256 {
        move_nodes(w, family, b, i, o, 1);
        return o + 1;
    }
    let m = i + (x / 256) as usize;
    let s = net_at(w, family, b, n, i as u32);
    let from = o + own_size(w, family, b, n, i + 1, m);
    let k = sieve(w, family, b, n, i + 1, m, from);
    link(w, family, b, o, from, k, s);
    sieve(w, family, b, n, m, e, k)
}
