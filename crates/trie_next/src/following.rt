// The network that follows a place in list order: the first leaf behind the place of its own length, or else the first leaf of the next length that there is.
ghost use Rattle.std.specs.Prelude.{◌≡◌, map, ◌++◌, ℕ, ◌-◌, ◌≤◌};
ghost use Rattle.nets.specs.Bits.{Bits};
ghost use Rattle.nets.specs.Tries.{Trie, bare, level, list_of};
ghost use Rattle.nets.specs.Lists.{next_l};
ghost use Rattle.nets.specs.Networks.{bits_left};
ghost use Rattle.trie_paths.specs.Spans.{Holds, Located};
ghost use Rattle.trie_next.specs.Following.{place_of, len_of, next_as, first_of, later_in, above};

use nets::{Net, PrefixBits};
use nodes::steps;
use trie_list::lengths;
use trie_paths::halves;

// The first leaf k levels below node i, where x is the network of its path.
fn first_at(w: &[u32], b: usize, i: usize, e: usize, x: Net, k: usize) -> Option<Net>
    requires { (f : ℕ) × (p : Bits) × (t : Trie) × Located w.now b i e x f p t }
    ensures { (f : ℕ) (p : Bits) (t : Trie) → Located w.now b i e x f p t → result ≡ next_as f (first_of (map (λ q. p ++ q) (level bare k t))) }
{
    if i == e {
        return None;
    }
    let y = steps::word(w, b, i);
    if y == 0 {
        if k == 0 {
            return Some(x);
        }
        return None;
    }
    if k == 0 {
        return None;
    }
    let m = steps::middle(y / 2, i, e);
    let n = first_at(w, b, i + 1, m, halves::first(x), k - 1);
    match n {
        Some(z) => Some(z),
        None => first_at(w, b, m, e, halves::second(x), k - 1),
    }
}

// The first leaf below node i whose path goes on as long as s and comes after it.
fn later(w: &[u32], b: usize, i: usize, e: usize, x: Net, s: PrefixBits) -> Option<Net>
    requires len_bound { s.len ≤ 128 }
    requires by_index { (f : ℕ) × (p : Bits) × (t : Trie) × Located w.now b i e x f p t }
    ensures { (f : ℕ) (p : Bits) (t : Trie) → Located w.now b i e x f p t → result ≡ next_as f (first_of (map (λ q. p ++ q) (later_in (bits_left s) t))) }
{
    if i == e {
        return None;
    }
    let y = steps::word(w, b, i);
    if y == 0 {
        return None;
    }
    let m = steps::middle(y / 2, i, e);
    let bits = s.next();
    match bits {
        None => None,
        Some((bit, rest)) => {
            if bit {
                return later(w, b, m, e, halves::second(x), rest);
            }
            let n = later(w, b, i + 1, m, halves::first(x), rest);
            match n {
                Some(z) => Some(z),
                None => first_at(w, b, m, e, halves::second(x), rest.len as usize),
            }
        }
    }
}

// The first network of the lengths from k on.
fn from_length(w: &[u32], b: usize, i: usize, e: usize, family: u8, k: usize) -> Option<Net>
    requires k_bound { k ≤ 129 }
    requires holds { (t : Trie) × Holds w.now b i e family t }
    ensures { (t : Trie) → Holds w.now b i e family t → result ≡ next_as family (first_of (above (129 - k) k t)) }
{
    let counts = lengths::tally(w, b, i, e);
    let n = lengths::next_length(&counts, k)?;
    first_at(w, b, i, e, halves::whole(family), n)
}

// The network that follows the place in the list of the trie that stands from node i up to node e.
pub fn next_after(
    w: &[u32],
    b: usize,
    i: usize,
    e: usize,
    family: u8,
    place: Option<PrefixBits>,
) -> Option<Net>
    requires place_bound { len_of place ≤ 128 }
    requires holds { (t : Trie) × Holds w.now b i e family t }
    ensures { (t : Trie) → Holds w.now b i e family t → result ≡ next_as family (next_l (list_of t) (place_of place)) }
{
    match place {
        None => from_length(w, b, i, e, family, 0),
        Some(s) => {
            let n = later(w, b, i, e, halves::whole(family), s);
            match n {
                Some(x) => Some(x),
                None => from_length(w, b, i, e, family, s.len as usize + 1),
            }
        }
    }
}
