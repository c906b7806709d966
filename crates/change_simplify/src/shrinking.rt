// Simplifying a set where it stands, in the form of the pool.
ghost use Rattle.std.specs.Prelude.{◌≡◌, ℕ, ◌+◌};
ghost use Rattle.nets.specs.Tries.{Trie};
ghost use Rattle.trie_blocks.specs.Simplify.{Source};
ghost use Rattle.pool_state.specs.Rules.{seat_of};
ghost use Rattle.pool_state.specs.Steps.{Surveyed};
ghost use Rattle.change_simplify.specs.Simplified.{Shrunk, ShrunkTrie};

use kept_simplify::simplifying::simplify;
use nodes::seats::Seat;
use pool_header::{FORM, NODES, most_levels};
use pool_state::Survey;
use trie_blocks::joining::next_join;
use trie_blocks::simplifying;
use trie_emit::emitting::{end_of, settle};

// Simplifies the trie of the surveyed set where it stands, in the first form, and moves nothing behind it. Answers the nodes that the trie has then.
fn shrink_trie(w: &mut [u32], b: usize, v: Survey, levels: u32) -> u32
    requires { (t : Trie) × Source w.old b v.at (v.at + v.held) v.at levels t }
    ensures { (t : Trie) → Source w.old b v.at (v.at + v.held) v.at levels t → ShrunkTrie w.old w.new b v.at t result }
{
    let i = v.at as usize;
    let e = i + v.held as usize;
    let next = next_join(w, b, i, e);
    let x = simplifying::simplify(w, b, i, e, i, next, levels as usize);
    settle(w, b, i, x);
    (end_of(x, i) - i) as u32
}

// Simplifies the surveyed set where it stands, and moves nothing behind it. Answers the nodes that it has then.
pub fn shrink(w: &mut [u32], v: Survey, t: Seat) -> u32
    requires { (t ≡ seat_of w.old v) × ((k : ℕ) × Surveyed w.old k v) }
    ensures { (k : ℕ) → Surveyed w.old k v → Shrunk w.old k v result w.new }
{
    if w[FORM] == 0 {
        let levels = most_levels(t.family as u32);
        return shrink_trie(w, t.base, v, levels);
    }
    let nodes = w[NODES];
    simplify(w, t.family, t.base, nodes, t.first, t.end) as u32
}
