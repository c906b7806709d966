// Where halves join first: at a branch point over two members that have one bit more. Its second half is the one node behind it, its first half the next.
ghost use Rattle.std.specs.Prelude.{◌≡◌, suc, ◌+◌, ◌≤◌, ◌<◌};
ghost use Rattle.kept_nodes.specs.Parse.{KeptRoom};
ghost use Rattle.kept_simplify.specs.Joins.{is_join, Apart};

use kept_reading::reading::head;
use trie_emit::joining;

// The distance from a branch point to its first child where its second has one node.
const NEXT: u32 = 2;

// Whether node j is a branch point over two members with one bit more.
fn is_join(w: &[u32], family: u8, b: usize, n: u32, j: usize) -> bool
    requires kept_room { KeptRoom family w.now b n }
    requires le_j { (1 ≤ j) × (j + 2 ≤ n) }
    ensures { result ≡ is_join family w.now b j }
{
    let x = head(w, family, b, n, j as u32);
    if x / 256 != NEXT {
        return false;
    }
    let y = x % 256 + 1;
    if head(w, family, b, n, (j + 1) as u32) != y {
        return false;
    }
    head(w, family, b, n, (j + 2) as u32) == y
}

// Up to where no halves join, from node k on, before node e: the first branch point over two that do, or e.
pub fn next_join(w: &[u32], family: u8, b: usize, n: u32, k: usize, e: usize) -> usize
    requires kept_room { KeptRoom family w.now b n }
    requires le_k { (1 ≤ k) × (k ≤ suc n) × (e ≤ suc n) }
    ensures { Apart family w.now b k e result }
{
    joining::next_join(k, e, |j| is_join(w, family, b, n, j))
}

// The same from node m on, where it is known up to node `next`.
pub fn join_from(w: &[u32], family: u8, b: usize, n: u32, m: usize, e: usize, next: usize) -> usize
    requires kept_room { KeptRoom family w.now b n }
    requires le_m { (1 ≤ m) × (m ≤ suc n) × (e ≤ suc n) }
    requires apart { Apart family w.now b m e next }
    ensures { Apart family w.now b m e result }
{
    if m <= next {
        return next;
    }
    next_join(w, family, b, n, m, e)
}
