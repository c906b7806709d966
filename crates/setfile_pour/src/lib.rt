// The networks of a set file into a trie in words, or out of it, at once and in place. Nothing is written but the nodes of the result.
ghost use Rattle.std.specs.Prelude.{List, ◌≡◌};
ghost use Rattle.nets.specs.Bits.{Bits};
ghost use Rattle.nets.specs.Tries.{Trie, size, trie_of};
ghost use Rattle.nodes.specs.Words.{put, place, enc};
ghost use Rattle.trie_pour.specs.Pour.{pour_t, cut_t};
ghost use Rattle.trie_pour.specs.Parts.{TrieWritten};
ghost use Rattle.setfile_pour.specs.Pouring.{Sources, Pours, Writes};

use setfile_below::begin;
use setfile_lanes::lanes::CURSORS;
use setfile_passes::counting::count;
use setfile_passes::cutting::cut;
use setfile_passes::filling::fill;
use trie_pour::keep;

// The nodes that the trie from node i up to node e has with the file's networks in it, or out of it. Nothing is written.
pub fn poured_size(
    w: &[u32],
    b: usize,
    i: usize,
    e: usize,
    bytes: &[u8],
    family: u8,
    into: bool,
) -> usize
    requires { (l : List Bits) × (t : Trie) × Sources w.now b i e bytes.now family l t }
    ensures { (l : List Bits) (t : Trie) → Sources w.now b i e bytes.now family l t → result ≡ size (pour_t into (trie_of l) t) }
{
    let mut cursors = [0u64; CURSORS];
    let s = begin(bytes, family, &mut cursors);
    let x = count(w, b, i, e, into, bytes, &mut cursors, s);
    x.nodes
}

// Cuts the trie from node i up to node e down to the nodes that the result has too; answers where it ends.
fn trim(w: &mut [u32], b: usize, i: usize, e: usize, bytes: &[u8], family: u8, into: bool) -> usize
    requires { (l : List Bits) × (t : Trie) × Sources w.old b i e bytes.now family l t }
    ensures { (l : List Bits) (t : Trie) → Sources w.old b i e bytes.now family l t
        → TrieWritten w.old w.new b i result (cut_t into (trie_of l) t) }
{
    let mut cursors = [0u64; CURSORS];
    let s = begin(bytes, family, &mut cursors);
    let x = cut(w, b, i, e, i, into, bytes, &mut cursors, s);
    x.end
}

// Writes from node o on what the trie from node i up to node e becomes.
fn write(
    w: &mut [u32],
    b: usize,
    i: usize,
    e: usize,
    o: usize,
    bytes: &[u8],
    family: u8,
    into: bool,
)
    requires { (l : List Bits) × (t : Trie) × Writes w.old b i e o bytes.now family into l t }
    ensures { (l : List Bits) (t : Trie) → Writes w.old b i e o bytes.now family into l t
        → w.new ≡ put w.old (place b o) (enc (pour_t into (trie_of l) t)) }
{
    let mut cursors = [0u64; CURSORS];
    let s = begin(bytes, family, &mut cursors);
    fill(w, b, i, e, o, into, bytes, &mut cursors, s);
}

// Writes from node i on the trie that stands there up to node e with the file's networks in it, or out of it; it ends at node g. What is left of the
// trie is moved to that end, where it is read before the result is written over it.
pub fn pour(
    w: &mut [u32],
    b: usize,
    i: usize,
    e: usize,
    g: usize,
    bytes: &[u8],
    family: u8,
    into: bool,
)
    requires { (l : List Bits) × (t : Trie) × Pours w.old b i e g bytes.now family into l t }
    ensures { (l : List Bits) (t : Trie) → Pours w.old b i e g bytes.now family into l t
        → w.new ≡ put w.old (place b i) (enc (pour_t into (trie_of l) t)) }
{
    let m = trim(w, b, i, e, bytes, family, into);
    let a = g - (m - i);
    keep(w, b, i, m, a);
    write(w, b, a, g, i, bytes, family, into);
}
