// Where halves join first, told by a test of a node. Both forms of a trie search so: a node over two leaves has them behind it.
ghost use Rattle.std.specs.Prelude.{ℕ, false, ◌+◌, ◌≤◌, ◌<◌};

// The first node from k on that the test names, or e: of those that have two more before node e.
pub fn next_join<F: Fn(usize) -> bool>(k: usize, e: usize, is_join: F) -> usize
    requires { (j : ℕ) → k ≤ j → j + 2 < e → F.pre is_join j }
    ensures { (j : ℕ) → k ≤ j → j < result → j + 2 < e → F.post is_join j false }
{
    for n in k..e.saturating_sub(2) {
        if is_join(n) {
            return n;
        }
    }
    e
}
