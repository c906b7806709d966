// The ranges of a trie in the second form, as rows of four numbers, as trie_ranges has those of the first. The members in address order are the nodes with
// distance 0 from the last to the first: one loop over the nodes, in which each member goes on from the range that is open, or opens the next one.
ghost use Rattle.nets.specs.Tries.{Trie};
ghost use Rattle.trie_ranges.specs.Opening.{Ranged};
ghost use Rattle.kept_list.specs.Listed.{KeptHolds};
ghost use Rattle.kept_ranges.specs.Taking.{Takable, NodeTakes};

use kept_reading::reading::{distance, net_at};
use trie_ranges::Open;
use trie_ranges::rows::take;

// Takes node k, if it is a member.
fn take_node(w: &[u32], family: u8, b: usize, n: u32, k: u32, at: Open, rows: &mut [u64]) -> Open
    requires { Takable family w.now b n k at }
    ensures { NodeTakes family w.now b k at rows.old result rows.new }
{
    if distance(w, family, b, n, k) != 0 {
        return at;
    }
    let x = net_at(w, family, b, n, k);
    take(at, x, rows)
}

// Goes through the trie that stands from node i up to node e and writes its ranges, where they fit; answers how many there are. Rows of length 0 are for
// counting.
pub fn write_ranges(
    w: &[u32],
    family: u8,
    b: usize,
    n: u32,
    i: usize,
    e: usize,
    rows: &mut [u64],
) -> usize
    requires { (t : Trie) × KeptHolds family w.now b n i e t }
    ensures { (t : Trie) → KeptHolds family w.now b n i e t → Ranged family t rows.old rows.new result }
{
    let mut at = Open { n: 0, hi: 0, lo: 0 };
    for k in (i..e).rev() {
        at = take_node(w, family, b, n, k as u32, at, rows);
    }
    at.n
}
