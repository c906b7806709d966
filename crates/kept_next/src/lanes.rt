// The next member of the same length. The members in address order are the nodes with distance 0 from the last to the first, so it stands before the node
// of a member, and who goes through a set from member to member reads the nodes once for each length.
ghost use Rattle.std.specs.Prelude.{◌≡◌, true, Some, ℕ, ◌+◌, ◌≤◌};
ghost use Rattle.nets.specs.Tries.{Trie};
ghost use Rattle.setfile_entries.specs.Entries.{Entry};
ghost use Rattle.kept_nodes.specs.Parse.{KeptRoom, head_at, net_at};
ghost use Rattle.kept_reading.specs.NodeStrings.{IsString};
ghost use Rattle.kept_list.specs.Listed.{KeptHolds};
ghost use Rattle.kept_next.specs.Lanes.{InLane, Behind};

use kept_lookup::step;
use kept_reading::reading::{head, net_at};
use kept_reading::strings::bit_at;
use nets::Net;

// Where the way down the bits of x ends: at the node of x, if x is a member. Nothing is built on that, as is_at looks. A step goes as far as the node's word
// says, so no range counts k.
fn seek(w: &[u32], family: u8, b: usize, n: u32, i: usize, e: usize, x: Net) -> usize
    requires kept_room { KeptRoom family w.now b n × IsString x }
    requires le_i { (1 ≤ i) × (e ≤ n + 1) }
    ensures { i ≤ result }
{
    let mut k = i;
    while k < e {
        let h = head(w, family, b, n, k as u32);
        let len = (h % 256) as u8;
        if h < 256 {
            return k;
        }
        if x.len <= len {
            return k;
        }
        k += step(bit_at(x, len), h / 256) as usize;
    }
    k
}

// Node k is the member x.
fn is_at(w: &[u32], family: u8, b: usize, n: u32, k: u32, x: Net) -> bool
    requires kept_room { KeptRoom family w.now b n }
    requires le_k { (1 ≤ k) × (k ≤ n) }
    ensures { result ≡ true → (head_at family w.now b k ≡ x.len) × (net_at family w.now b k ≡ x) }
{
    if head(w, family, b, n, k) != x.len as u32 {
        return false;
    }
    net_at(w, family, b, n, k) == x
}

// The last node before node k, of those from node i on, that is a member with so many bits, if there is one.
fn next_in_lane(
    w: &[u32],
    family: u8,
    b: usize,
    n: u32,
    i: usize,
    k: usize,
    len: u8,
) -> Option<usize>
    requires kept_room { KeptRoom family w.now b n }
    requires le_i { (1 ≤ i) × (k ≤ n + 1) }
    ensures { (r : ℕ) → result ≡ Some r → InLane family w.now b i k len r }
{
    for j in (i..k).rev() {
        if head(w, family, b, n, j as u32) == len as u32 {
            return Some(j);
        }
    }
    None
}

// The node of the network that follows the member last in the list, if last is a member and it is of the same length.
pub fn behind(
    w: &[u32],
    family: u8,
    b: usize,
    n: u32,
    i: usize,
    e: usize,
    last: Net,
) -> Option<usize>
    requires { Entry family last × ((t : Trie) × KeptHolds family w.now b n i e t) }
    ensures { (t : Trie) (r : ℕ) → KeptHolds family w.now b n i e t → result ≡ Some r → Behind family w.now b i e t last r }
{
    let k = seek(w, family, b, n, i, e, last);
    if e <= k {
        return None;
    }
    if !is_at(w, family, b, n, k as u32, last) {
        return None;
    }
    next_in_lane(w, family, b, n, i, k, last.len)
}
