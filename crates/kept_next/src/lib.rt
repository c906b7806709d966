// The network that follows a place in the list of a trie in the second form: behind a member the next of its length, if there is one (lanes); else by one
// loop over the nodes, which keeps the first in list order of the members behind the place.
ghost use Rattle.std.specs.Prelude.{List, ◌++◌, ◌≡◌, Some};
ghost use Rattle.nets.specs.Bits.{Bits};
ghost use Rattle.nets.specs.Lists.{is_past, next_l};
ghost use Rattle.nets.specs.Networks.{net_bits};
ghost use Rattle.nets.specs.Tries.{Trie, list_of};
ghost use Rattle.setfile_entries.specs.Entries.{Entry};
ghost use Rattle.trie_next.specs.Following.{next_as};
ghost use Rattle.kept_list.specs.Listed.{KeptHolds};
ghost use Rattle.kept_next.specs.Nearest.{place_at, comes_first, own_of, Nearest, Looks};

use kept_reading::reading::{distance, net_at};
use lanes::behind;
use nets::Net;
use setfile_entries::cleared::is_before;

mod lanes;

// The network x is past the place: before the first network where there is no last one, else behind the last.
fn is_past(last: Option<Net>, x: Net) -> bool
    requires { (y : Net) → last ≡ Some y → Entry y.family y × Entry y.family x }
    ensures { result ≡ is_past (place_at last) (net_bits x) }
{
    match last {
        None => true,
        Some(y) => is_before(y, x),
    }
}

// The network x comes before the nearest so far.
fn is_nearer(x: Net, best: Option<Net>) -> bool
    requires { (y : Net) → best ≡ Some y → Entry x.family x × Entry x.family y }
    ensures { result ≡ comes_first (net_bits x) best }
{
    match best {
        None => true,
        Some(y) => is_before(x, y),
    }
}

// The nearest, with node k.
fn nearest(
    w: &[u32],
    family: u8,
    b: usize,
    n: u32,
    k: u32,
    last: Option<Net>,
    best: Option<Net>,
) -> Option<Net>
    requires { Looks family w.now b n k last × ((ms : List Bits) × Nearest family (place_at last) ms best) }
    ensures { (ms : List Bits) → Nearest family (place_at last) ms best
        → Nearest family (place_at last) (own_of family w.now b k ++ ms) result }
{
    if distance(w, family, b, n, k) != 0 {
        return best;
    }
    let x = net_at(w, family, b, n, k);
    if !is_past(last, x) {
        return best;
    }
    if !is_nearer(x, best) {
        return best;
    }
    Some(x)
}

// The network that follows the place in the list of the trie that stands from node i up to node e, by a loop over all nodes.
fn nearest_of_all(
    w: &[u32],
    family: u8,
    b: usize,
    n: u32,
    i: usize,
    e: usize,
    last: Option<Net>,
) -> Option<Net>
    requires { ((y : Net) → last ≡ Some y → Entry family y) × ((t : Trie) × KeptHolds family w.now b n i e t) }
    ensures { (t : Trie) → KeptHolds family w.now b n i e t → result ≡ next_as family (next_l (list_of t) (place_at last)) }
{
    let mut best = None;
    for k in i..e {
        best = nearest(w, family, b, n, k as u32, last, best);
    }
    best
}

// The same, where it can be from the node of the last network on.
pub fn next_after(
    w: &[u32],
    family: u8,
    b: usize,
    n: u32,
    i: usize,
    e: usize,
    last: Option<Net>,
) -> Option<Net>
    requires { ((y : Net) → last ≡ Some y → Entry family y) × ((t : Trie) × KeptHolds family w.now b n i e t) }
    ensures { (t : Trie) → KeptHolds family w.now b n i e t → result ≡ next_as family (next_l (list_of t) (place_at last)) }
{
    if let Some(x) = last {
        if let Some(k) = behind(w, family, b, n, i, e, x) {
            return Some(net_at(w, family, b, n, k as u32));
        }
    }
    nearest_of_all(w, family, b, n, i, e, last)
}
