// Where halves join first: a node with two leaves has the word 5, and its second leaf, 0, stands two behind it.
ghost use Rattle.std.specs.Prelude.{false, ◌≡◌, ◌+◌, ◌≤◌, ◌<◌, length};
ghost use Rattle.nodes.specs.Words.{place, word_at};
ghost use Rattle.trie_blocks.specs.Joins.{Apart};

use trie_emit::joining;

// The word of a node whose first child is a leaf and whose second child follows it.
const FORK: u32 = 5;

// Whether node n is one over two leaves.
fn is_join(w: &[u32], b: usize, n: usize) -> bool
    requires { (1 ≤ n) × (place b (n + 2) < length w.now) × (n ≤ 1073741824) }
    ensures { result ≡ false → word_at w.now b n ≡ 5 → word_at w.now b (n + 2) ≡ 0 → ⊥ }
{
    w[b + (n - 1)] == FORK && w[b + (n + 1)] == 0
}

// Up to where no two leaves from node k on, before node e, are halves of one block: the node over the first two that are, or e.
pub fn next_join(w: &[u32], b: usize, k: usize, e: usize) -> usize
    requires { (1 ≤ k) × (k ≤ 1073741824) × (place b e ≤ length w.now) × (e ≤ 1073741824) }
    ensures { Apart w.now b k e result }
{
    joining::next_join(k, e, |n| is_join(w, b, n))
}

// The same from node m on, where it is known up to node `next`.
pub fn join_from(w: &[u32], b: usize, m: usize, e: usize, next: usize) -> usize
    requires le_m { (1 ≤ m) × (m ≤ 1073741824) × (place b e ≤ length w.now) × (e ≤ 1073741824) }
    requires apart { Apart w.now b m e next }
    ensures { Apart w.now b m e result }
{
    if m <= next {
        return next;
    }
    next_join(w, b, m, e)
}
