// A trie in the words and the inner networks: the part of it inside each.
ghost use Rattle.std.specs.Prelude.{◌≡◌, ℕ, ◌≤◌};
ghost use Rattle.nets.specs.Networks.{bits_left};
ghost use Rattle.nets.specs.Tries.{Trie, none, list_of};
ghost use Rattle.nodes.specs.Parse.{Room, Stands};
ghost use Rattle.trie_emit.specs.Combine.{Means};
ghost use Rattle.inner_nets.specs.Inner.{overlaps_one, is_public};
ghost use Rattle.inner_nets.specs.Parts.{down};

use inner_nets::walks::none_meets;
use nets::PrefixBits;
use trie_emit::combining::piece;

// The number of the part of what the number i means that lies inside the network of these bits, one word a level. Where nothing is left the way ends.
pub fn inside(w: &[u32], b: usize, i: usize, s: PrefixBits) -> usize
    requires { (s.len ≤ 128) × ((o : ℕ) × (g : ℕ) × (t : Trie) × Means w.now b o g i t) }
    ensures { (o g : ℕ) (t : Trie) → Means w.now b o g i t → Means w.now b o g result (down (bits_left s) t) }
{
    let mut at = i;
    let mut left = s;
    loop {
        if at == 0 {
            return 0;
        }
        let next = left.next();
        match next {
            None => return at,
            Some((bit, later)) => {
                at = piece(w, b, at, bit);
                left = later;
            }
        }
    }
}

// What the number i means overlaps the network of these bits.
fn overlaps(w: &[u32], b: usize, i: usize, s: PrefixBits) -> bool
    requires { (s.len ≤ 128) × ((o : ℕ) × (g : ℕ) × (t : Trie) × Means w.now b o g i t) }
    ensures { (o g : ℕ) (t : Trie) → Means w.now b o g i t → result ≡ overlaps_one (list_of t) (bits_left s) }
{
    inside(w, b, i, s) != 0
}

// What the number i means overlaps no inner network of the family.
pub fn is_public(w: &[u32], b: usize, i: usize, family: u32) -> bool
    requires { (o : ℕ) × (g : ℕ) × (t : Trie) × Means w.now b o g i t }
    ensures { (o g : ℕ) (t : Trie) → Means w.now b o g i t → result ≡ is_public family (list_of t) }
{
    none_meets(family, |s| overlaps(w, b, i, s))
}

// The trie that stands at node i, of the nodes 1..=n that stand from b on, overlaps no inner network of the family.
pub fn is_clear(w: &[u32], b: usize, n: u32, i: u32, family: u32) -> bool
    requires room { Room w.now b n × (1 ≤ i) }
    requires by_index { (f : ℕ) × (t : Trie) × Stands w.now b n f i t × (t ≡ none → ⊥) }
    ensures { (f : ℕ) (t : Trie) → Stands w.now b n f i t → (t ≡ none → ⊥) → result ≡ is_public family (list_of t) }
{
    is_public(w, b, i as usize, family)
}
