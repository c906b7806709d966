// A trie in the second form and the inner networks: the part of it inside each.
ghost use Rattle.std.specs.Prelude.{◌≡◌, [], ℕ, ◌≤◌};
ghost use Rattle.nets.specs.Networks.{bits_left};
ghost use Rattle.nets.specs.Tries.{Trie, none, list_of};
ghost use Rattle.inner_nets.specs.Inner.{overlaps_one, is_public};
ghost use Rattle.inner_nets.specs.Parts.{down};
ghost use Rattle.kept_nodes.specs.Parse.{KeptRoom, KeptStands};
ghost use Rattle.kept_sources.specs.Sources.{KeptMeans};

use inner_nets::walks::none_meets;
use kept_sources::piece;
use nets::PrefixBits;

// The number of the part of what the number i means that lies inside the network of these bits. Where nothing is left the way ends.
pub fn inside(w: &[u32], family: u8, b: usize, n: u32, i: usize, s: PrefixBits) -> usize
    requires { (s.len ≤ 128) × (KeptRoom family w.now b n × ((o : ℕ) × (g : ℕ) × (t : Trie) × KeptMeans family w.now b n o g [] i t)) }
    ensures { (o g : ℕ) (t : Trie) → KeptMeans family w.now b n o g [] i t → KeptMeans family w.now b n o g (bits_left s) result (down (bits_left s) t) }
{
    let mut at = i;
    let mut left = s;
    loop {
        if at == 0 {
            return 0;
        }
        let next = left.next();
        match next {
            None => return at,
            Some((bit, later)) => {
                at = piece(w, family, b, n, at, s.len - left.len, bit);
                left = later;
            }
        }
    }
}

// What the number i means overlaps the network of these bits.
fn overlaps(w: &[u32], family: u8, b: usize, n: u32, i: usize, s: PrefixBits) -> bool
    requires { (s.len ≤ 128) × (KeptRoom family w.now b n × ((o : ℕ) × (g : ℕ) × (t : Trie) × KeptMeans family w.now b n o g [] i t)) }
    ensures { (o g : ℕ) (t : Trie) → KeptMeans family w.now b n o g [] i t → result ≡ overlaps_one (list_of t) (bits_left s) }
{
    inside(w, family, b, n, i, s) != 0
}

// What the number i means overlaps no inner network of the family.
pub fn is_public(w: &[u32], family: u8, b: usize, n: u32, i: usize) -> bool
    requires { KeptRoom family w.now b n × ((o : ℕ) × (g : ℕ) × (t : Trie) × KeptMeans family w.now b n o g [] i t) }
    ensures { (o g : ℕ) (t : Trie) → KeptMeans family w.now b n o g [] i t → result ≡ is_public family (list_of t) }
{
    none_meets(family as u32, |s| overlaps(w, family, b, n, i, s))
}

// The trie that stands at node i, of the nodes 1..=n that stand from b on, overlaps no inner network of the family.
pub fn is_clear(w: &[u32], family: u8, b: usize, n: u32, i: u32) -> bool
    requires kept_room { KeptRoom family w.now b n × (1 ≤ i) }
    requires kept_stands { (t : Trie) × KeptStands family w.now b n [] i t × (t ≡ none → ⊥) }
    ensures { (t : Trie) → KeptStands family w.now b n [] i t → (t ≡ none → ⊥) → result ≡ is_public family (list_of t) }
{
    is_public(w, family, b, n, i as usize)
}
