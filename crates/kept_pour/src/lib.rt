// The networks of a set file into a trie of the second form, or out of it, beside the file's stream and in place: counted by reading alone, cut, and written
// backward into just the result's nodes. A trie is given by two numbers: the node where it stands and its end, or 0 and 0 for a full one that stands nowhere.
// Each function asks in its contract what makes it safe.
ghost use Rattle.std.specs.Prelude.{List, [], ◌≡◌};
ghost use Rattle.nets.specs.Bits.{Bits};
ghost use Rattle.nets.specs.Tries.{Trie, trie_of};
ghost use Rattle.branch_points.specs.KeptTries.{kept_size};
ghost use Rattle.trie_pour.specs.Pour.{pour_t};
ghost use Rattle.nodes.specs.Words.{put};
ghost use Rattle.kept_nodes.specs.Words.{kept_enc, spot};
ghost use Rattle.kept_steps.specs.Segments.{KeptSpliced};
ghost use Rattle.kept_sieve.specs.Spare.{spare_t};
ghost use Rattle.kept_build.specs.Building.{Grown};
ghost use Rattle.kept_pour.specs.Pouring.{Sources, Refills, Pours};

use counting::count;
use filling::fill;
use kept_cut::cutting::cut;
use setfile_below::begin;
use setfile_lanes::lanes::CURSORS;
use trie_paths::halves::whole;

mod counting;
mod filling;
mod parts;

// The nodes that the trie from node i up to node e has with the file's networks in it, or out of it. Nothing is written.
pub fn poured_size(
    w: &[u32],
    family: u8,
    b: usize,
    n: u32,
    i: usize,
    e: usize,
    bytes: &[u8],
    into: bool,
) -> usize
    requires { (l : List Bits) × (t : Trie) × Sources family w.now b n i e bytes.now l t }
    ensures { (l : List Bits) (t : Trie) → Sources family w.now b n i e bytes.now l t
        → result ≡ kept_size (pour_t into (trie_of l) t) }
{
    let mut cursors = [0u64; CURSORS];
    let s = begin(bytes, family, &mut cursors);
    let x = count(w, b, n, i, e, into, bytes, &mut cursors, s);
    x.nodes
}

// Cuts the trie from node i up to node e down to what pouring needs of it; answers where it ends.
fn trim(
    w: &mut [u32],
    family: u8,
    b: usize,
    n: u32,
    i: usize,
    e: usize,
    bytes: &[u8],
    into: bool,
) -> usize
    requires { (l : List Bits) × (t : Trie) × Sources family w.old b n i e bytes.now l t }
    ensures { (l : List Bits) (t : Trie) → Sources family w.old b n i e bytes.now l t
        → KeptSpliced family w.old w.new b i result [] (spare_t into (trie_of l) t) [] }
{
    let mut cursors = [0u64; CURSORS];
    let s = begin(bytes, family, &mut cursors);
    let x = cut(w, b, n, i, e, into, bytes, &mut cursors, s);
    x.end
}

// Writes, so that it ends before node g, the trie with the file's networks in it, or out of it, of which the nodes that the result has too stand from node i up
// to node e; answers where it begins.
fn refill(
    w: &mut [u32],
    family: u8,
    b: usize,
    n: u32,
    i: usize,
    e: usize,
    g: usize,
    bytes: &[u8],
    into: bool,
) -> usize
    requires { (l : List Bits) × (t : Trie) × Refills family w.old b n i e g bytes.now into l t }
    ensures { (l : List Bits) (t : Trie) → Refills family w.old b n i e g bytes.now into l t
        → Grown family w.old w.new b g [] (pour_t into (trie_of l) t) result }
{
    let mut cursors = [0u64; CURSORS];
    let s = begin(bytes, family, &mut cursors);
    let path = whole(family);
    let x = fill(w, b, n, i, e, g, into, bytes, &mut cursors, s, path);
    x.start
}

// Writes from node i on the trie that stands there up to node e with the file's networks in it, or out of it; it ends before node g. What is left of the trie
// stays at the low end, where it is read before the result is written over it.
pub fn pour(
    w: &mut [u32],
    family: u8,
    b: usize,
    n: u32,
    i: usize,
    e: usize,
    g: usize,
    bytes: &[u8],
    into: bool,
)
    requires { (l : List Bits) × (t : Trie) × Pours family w.old b n i e g bytes.now into l t }
    ensures { (l : List Bits) (t : Trie) → Pours family w.old b n i e g bytes.now into l t
        → w.new ≡ put w.old (spot family b i) (kept_enc family [] (pour_t into (trie_of l) t)) }
{
    let m = trim(w, family, b, n, i, e, bytes, into);
    refill(w, family, b, n, i, m, g, bytes, into);
}
