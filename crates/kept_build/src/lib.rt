// Writing the trie of the networks that a set file gives in address order, in the second form and backward: it ends before a given node. Each function asks in
// its contract what makes it safe.
ghost use Rattle.std.specs.Prelude.{◌≡◌, List, [], ◌-◌};
ghost use Rattle.nets.specs.Bits.{Bits};
ghost use Rattle.nets.specs.Tries.{Trie, trie_of};
ghost use Rattle.branch_points.specs.BranchPoints.{kept_nodes_l};
ghost use Rattle.branch_points.specs.KeptTries.{kept_size};
ghost use Rattle.nodes.specs.Words.{put};
ghost use Rattle.kept_nodes.specs.Words.{kept_enc, spot};
ghost use Rattle.setfile_below.specs.Stream.{below, last_of, Comes};
ghost use Rattle.kept_build.specs.Building.{Runs, Grows, Grown, few, Fillable};

use branches::branch;
use kept_writing::write_node;
use setfile_below::begin;
use setfile_lanes::lanes::CURSORS;
use setfile_order::Head;
use setfile_order::flowing::advance;

mod branches;

// Where what is written begins, and the head behind what was read.
#[derive(Clone, Copy)]
pub struct Built {
    pub start: usize,
    pub head: Head,
}

// Writes the trie of the networks from the head on that have their first d bits in common with it, so that it ends before node e. The first of them is written,
// and then, again and again, those that leave its path at the deepest branch point that is left: they are the second half of that branch point, and what was
// written is its first. So each node is written once, and the work grows with the networks.
pub fn grow(
    w: &mut [u32],
    family: u8,
    b: usize,
    e: usize,
    first: Head,
    d: usize,
    bytes: &[u8],
    cursors: &mut [u64; CURSORS],
) -> Built
    requires { (q : Bits) × (p : Bits) × (t : Trie) × (ms : List Bits) × Grows family w.old b e first d bytes.now cursors.old q p t ms }
    ensures { (q p : Bits) (t : Trie) (ms : List Bits) → Grows family w.old b e first d bytes.now cursors.old q p t ms
        → Grown family w.old w.new b e p t result.start
        × Comes bytes.now family cursors.new result.head (last_of q (below p t)) ms }
{
    let mut o = e - 1;
    write_node(w, family, b, o, first.net, 0);
    let mut h = advance(bytes, family, cursors, first);
    while d < h.deep {
        let r = grow(w, family, b, o, h, h.deep, bytes, cursors);
        let i = r.start - 1;
        branch(w, family, b, i, o, h);
        o = i;
        let next = r.head;
        h = next;
    }
    Built { start: o, head: h }
}

// How many nodes, and the head behind what was read.
#[derive(Clone, Copy)]
pub struct Tallied {
    pub nodes: usize,
    pub head: Head,
}

// How many nodes the trie has of the networks from the head on that have their first d bits in common with it: a member for each, and a branch point before
// each but the first.
pub fn tally(
    family: u8,
    first: Head,
    d: usize,
    bytes: &[u8],
    cursors: &mut [u64; CURSORS],
) -> Tallied
    requires { (q : Bits) × (p : Bits) × (t : Trie) × (ms : List Bits) × Runs family first d bytes.now cursors.old q p t ms × few t }
    ensures { (q p : Bits) (t : Trie) (ms : List Bits) → Runs family first d bytes.now cursors.old q p t ms → few t
        → (result.nodes ≡ kept_size t) × Comes bytes.now family cursors.new result.head (last_of q (below p t)) ms }
{
    let mut nodes = 1;
    let mut h = advance(bytes, family, cursors, first);
    while d < h.deep {
        nodes += 2;
        h = advance(bytes, family, cursors, h);
    }
    Tallied { nodes, head: h }
}

// Writes the trie of the file's list so that it ends before node e, and answers where it begins.
pub fn build(w: &mut [u32], family: u8, b: usize, e: usize, bytes: &[u8]) -> usize
    requires { (l : List Bits) × Fillable family w.old b e bytes.now l }
    ensures { (l : List Bits) → Fillable family w.old b e bytes.now l
        → (result ≡ e - kept_nodes_l l) × (w.new ≡ put w.old (spot family b (e - kept_nodes_l l)) (kept_enc family [] (trie_of l))) }
{
    let mut cursors = [0u64; CURSORS];
    let s = begin(bytes, family, &mut cursors);
    if !s.some {
        return e;
    }
    let head = s.head;
    let r = grow(w, family, b, e, head, 0, bytes, &mut cursors);
    r.start
}
