// The networks of a set file below a path, in address order. They come one behind the other, so whether there are any below its second half shows
// when those below its first half are passed: the head then shares as many bits with the last of them as the path has. Each function asks in its
// contract what makes it safe.
ghost use Rattle.std.specs.Prelude.{true, false, not, List, [], ◌++◌, ◌≡◌};
ghost use Rattle.nets.specs.Bits.{Bits};
ghost use Rattle.nets.specs.Tries.{Trie, node, trie_of, is_none, is_leaf, bare};
ghost use Rattle.trie_paths.specs.Spans.{snoc};
ghost use Rattle.setfile_format.specs.Files.{read_file, file};
ghost use Rattle.setfile_order.specs.Flow.{head_as};
ghost use Rattle.setfile_below.specs.Stream.{below, last_of, Under, Comes, At};

use setfile_build::bits::bit_at;
use setfile_lanes::lanes::CURSORS;
use setfile_order::{Head, flowing};

// The file's family, its next network, the length of the path, and whether that network is below the path.
#[derive(Clone, Copy)]
pub struct Below {
    pub family: u8,
    pub head: Head,
    pub depth: usize,
    pub some: bool,
}

// All networks of the file, below the empty path.
pub fn begin(bytes: &[u8], family: u8, cursors: &mut [u64; CURSORS]) -> Below
    requires { (l : List Bits) × (read_file bytes.now ≡ file family l) }
    ensures { (result.family ≡ family) × ((l : List Bits) → read_file bytes.now ≡ file family l
        → At bytes.now cursors.new result [] [] (trie_of l) []) }
{
    let head = flowing::open(bytes, family, cursors);
    Below {
        family,
        head,
        depth: 0,
        some: head.deep != 0,
    }
}

// Whether the next network, which is below the path, is the path itself.
pub fn is_whole(s: Below) -> bool
    ensures { (q p : Bits) (t : Trie) (ms : List Bits) → Under s q p t ms → is_none t ≡ false → result ≡ is_leaf t }
{
    s.head.net.len as usize == s.depth
}

// Whether the next network, which is longer than the path, is below its second half.
fn turns(s: Below) -> bool
    requires { (q : Bits) × (p : Bits) × (l : Trie) × (r : Trie) × (ms : List Bits) × Under s q p (node l r) ms × (bare l r ≡ false) }
    ensures { (q p : Bits) (l r : Trie) (ms : List Bits) → Under s q p (node l r) ms → bare l r ≡ false → result ≡ is_none l }
{
    bit_at(s.head.net, s.depth)
}

// What is below the first half.
pub fn first(s: Below) -> Below
    requires { (q : Bits) × (p : Bits) × (l : Trie) × (r : Trie) × (ms : List Bits) × Under s q p (node l r) ms × (bare l r ≡ false) }
    ensures { (result.family ≡ s.family) × ((q p : Bits) (l r : Trie) (ms : List Bits) → Under s q p (node l r) ms → bare l r ≡ false
        → Under result q (snoc p false) l (below (snoc p true) r ++ ms)) }
{
    Below {
        depth: s.depth + 1,
        some: !turns(s),
        ..s
    }
}

// Whether anything is below the second half, where the head comes behind what is below the first.
fn more(s: Below, head: Head) -> bool
    requires { (q : Bits) × (p : Bits) × (l : Trie) × (r : Trie) × (ms : List Bits) × Under s q p (node l r) ms × (bare l r ≡ false) }
    ensures { (q p : Bits) (l r : Trie) (ms : List Bits) → Under s q p (node l r) ms → bare l r ≡ false
        → head ≡ head_as s.family (last_of q (below (snoc p false) l)) (below (snoc p true) r ++ ms) → is_none r ≡ not result }
{
    if turns(s) {
        return true;
    }
    s.depth < head.deep
}

// What is below the second half, with the head behind what is below the first.
pub fn second(s: Below, head: Head) -> Below
    requires { (q : Bits) × (p : Bits) × (l : Trie) × (r : Trie) × (ms : List Bits) × Under s q p (node l r) ms × (bare l r ≡ false) }
    ensures { (result.family ≡ s.family) × ((q p : Bits) (l r : Trie) (ms : List Bits) → Under s q p (node l r) ms → bare l r ≡ false
        → head ≡ head_as s.family (last_of q (below (snoc p false) l)) (below (snoc p true) r ++ ms)
        → Under result (last_of q (below (snoc p false) l)) (snoc p true) r ms) }
{
    Below {
        head,
        depth: s.depth + 1,
        some: more(s, head),
        ..s
    }
}

// The head behind all that is below the path.
pub fn pass(bytes: &[u8], cursors: &mut [u64; CURSORS], s: Below) -> Head
    requires { (q : Bits) × (p : Bits) × (t : Trie) × (ms : List Bits) × At bytes.now cursors.old s q p t ms }
    ensures { (q p : Bits) (t : Trie) (ms : List Bits) → At bytes.now cursors.old s q p t ms
        → Comes bytes.now s.family cursors.new result (last_of q (below p t)) ms }
{
    let head = s.head;
    if !s.some {
        return head;
    }
    if is_whole(s) {
        return flowing::advance(bytes, s.family, cursors, head);
    }
    let x = first(s);
    let h = pass(bytes, cursors, x);
    let y = second(s, h);
    pass(bytes, cursors, y)
}
