// Nodes of the second form in the pool's words: the head, the string as a network, and whether the words are those of a node. Node numbers are 1..=n, 0 is no node.
ghost use Rattle.std.specs.Prelude.{◌≡◌, ◌+◌, ◌*◌, ◌^◌, ◌≤◌, ◌<◌, length};
ghost use Rattle.kept_nodes.specs.Parse.{KeptRoom, head_at, dist_at, is_node};
ghost use Rattle.kept_reading.specs.NodeStrings.{ReadAs, FoundAs};

use nets::families::width;
use nets::{IPV4, Net, has_bit_past};

// The first word of node i: the length of its string, and 256 times the distance to its first child.
pub fn head(w: &[u32], family: u8, b: usize, n: u32, i: u32) -> u32
    requires kept_room { KeptRoom family w.now b n }
    requires le_i { (1 ≤ i) × (i ≤ n) }
    ensures { result ≡ head_at family w.now b i }
{
    let k = i as usize;
    if family == IPV4 {
        return w[b + 2 * (k - 1)];
    }
    w[b + 5 * (k - 1)]
}

// The distance from node i to its first child, 0 where it has none.
pub fn distance(w: &[u32], family: u8, b: usize, n: u32, i: u32) -> u32
    requires kept_room { KeptRoom family w.now b n }
    requires le_i { (1 ≤ i) × (i ≤ n) }
    ensures { (result ≡ dist_at family w.now b i) × (result < 16777216) }
{
    head(w, family, b, n, i) / 256
}

// The number of two words.
fn pair(high: u32, low: u32) -> u64
    ensures { result ≡ high * 2 ^ 32 + low }
{
    u64::from(high) * 0x1_0000_0000 + u64::from(low)
}

// The string of the node of family 4 whose words begin at p.
fn short_net(w: &[u32], family: u8, p: usize) -> Net
    requires { (p + 2 ≤ length w.now) × (family ≡ 4) }
    ensures { FoundAs family w.now p result }
{
    Net {
        family,
        hi: 0,
        lo: u64::from(w[p + 1]),
        len: (w[p] % 256) as u8,
    }
}

// The string of the node of another family whose words begin at p.
fn long_net(w: &[u32], family: u8, p: usize) -> Net
    requires { (p + 5 ≤ length w.now) × (family ≡ 4 → ⊥) }
    ensures { FoundAs family w.now p result }
{
    Net {
        family,
        hi: pair(w[p + 1], w[p + 2]),
        lo: pair(w[p + 3], w[p + 4]),
        len: (w[p] % 256) as u8,
    }
}

// The string of node i.
pub fn net_at(w: &[u32], family: u8, b: usize, n: u32, i: u32) -> Net
    requires kept_room { KeptRoom family w.now b n }
    requires le_i { (1 ≤ i) × (i ≤ n) }
    ensures { ReadAs family w.now b i result }
{
    let k = i as usize;
    if family == IPV4 {
        return short_net(w, family, b + 2 * (k - 1));
    }
    long_net(w, family, b + 5 * (k - 1))
}

// The words of node i are those of a string of the family.
pub fn is_node(w: &[u32], family: u8, b: usize, n: u32, i: u32) -> bool
    requires kept_room { KeptRoom family w.now b n }
    requires le_i { (1 ≤ i) × (i ≤ n) }
    ensures { result ≡ is_node family w.now b i }
{
    let x = net_at(w, family, b, n, i);
    if width(family) < x.len {
        return false;
    }
    !has_bit_past(x)
}
