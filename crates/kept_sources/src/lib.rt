// The sources of a set operation in the second form: a number means nothing (0), everything (ALL), or the trie that stands at that node below a string of d bits, which may end in the
// middle of the node's edge.
#![tactic(auto)]

ghost use Rattle.std.specs.Prelude.{◌≡◌, ℕ, length};
ghost use Rattle.nets.specs.Bits.{Bits};
ghost use Rattle.nets.specs.Tries.{Trie, side};
ghost use Rattle.nets.specs.TrieOps.{kind_of, half};
ghost use Rattle.trie_emit.specs.Combine.{rank};
ghost use Rattle.trie_paths.specs.Spans.{snoc};
ghost use Rattle.kept_nodes.specs.Parse.{KeptRoom};
ghost use Rattle.kept_sources.specs.Sources.{KeptMeans};

use kept_reading::reading::{head, net_at};
use kept_reading::strings::bit_at;
use trie_emit::combining::{ALL, EMPTY, FULL, MIXED};

// The kind of what the number i means.
pub fn kind(w: &[u32], family: u8, b: usize, n: u32, i: usize, d: u8) -> usize
    requires { KeptRoom family w.now b n × ((o : ℕ) × (g : ℕ) × (p : Bits) × (t : Trie) × KeptMeans family w.now b n o g p i t × (length p ≡ d)) }
    ensures { (o g : ℕ) (p : Bits) (t : Trie) → KeptMeans family w.now b n o g p i t → length p ≡ d → result ≡ rank (kind_of t) }
{
    if i == 0 {
        return EMPTY;
    }
    if i == ALL {
        return FULL;
    }
    if head(w, family, b, n, i as u32) == d as u32 {
        return FULL;
    }
    MIXED
}

// The distance from a branch point to a child, by the distance to its first.
fn toward(second: bool, x: u32) -> usize
    ensures { result ≡ side second x 1 }
{
    if second {
        return 1;
    }
    x as usize
}

// The number of a half of what the number i means, below one bit more.
pub fn piece(w: &[u32], family: u8, b: usize, n: u32, i: usize, d: u8, second: bool) -> usize
    requires { KeptRoom family w.now b n × ((o : ℕ) × (g : ℕ) × (p : Bits) × (t : Trie) × KeptMeans family w.now b n o g p i t × (length p ≡ d)) }
    ensures { (o g : ℕ) (p : Bits) (t : Trie) → KeptMeans family w.now b n o g p i t → length p ≡ d → KeptMeans family w.now b n o g (snoc p second) result (half second t) }
{
    let k = kind(w, family, b, n, i, d);
    if k == EMPTY {
        return 0;
    }
    if k == FULL {
        return ALL;
    }
    let x = head(w, family, b, n, i as u32);
    if x % 256 == d as u32 {
        return i + toward(second, x / 256);
    }
    let s = net_at(w, family, b, n, i as u32);
    if bit_at(s, d) == second {
        return i;
    }
    0
}
