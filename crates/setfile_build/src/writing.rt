// The trie of the networks of a file, written in preorder as they come in address order. It grows at its right end: a network shares the first nodes of its path with the last one. The node where it
// leaves that path gets its second child at the end, and the rest of its own path stands there. So each node is written once, and one with two children once more.
ghost use Rattle.std.specs.Prelude.{◌≡◌};
ghost use Rattle.nets.specs.Tries.{Trie};
ghost use Rattle.nodes.specs.Words.{put, place, enc};
ghost use Rattle.setfile_build.specs.Building.{Chains, Chained, Appends, Appended, Due};

use crate::bits::{bits_behind, bits_from};
use nets::Net;
use nodes::writing;
use setfile_lanes::lanes::CURSORS;
use setfile_order::Head;
use setfile_order::flowing::advance;

// The nodes on a path: the root, and one for each bit.
const PATH: usize = 129;

// Writes from node e on the nodes of a network's path from depth d on, and notes their numbers. Each has one child, on the side of its bit, and the last is a leaf. The bits
// still to come are kept in a word: asked for one by one, they would be taken two at a time by code that costs more than it saves.
fn chain(w: &mut [u32], b: usize, e: usize, n: Net, d: usize, path: &mut [usize; PATH])
    requires { Chains w.old b e n d path.old }
    ensures { Chained w.old w.new b e n d path.old path.new }
{
    let len = n.len as usize;
    let mut i = e;
    let mut rest = bits_from(n, d);
    for k in d..len {
        path[k] = i;
        let bit = rest >> 63 == 1;
        writing::store(w, b, i, 1 + bit as usize);
        rest = bits_behind(n, k, rest);
        i += 1;
    }
    path[len] = i;
    writing::store(w, b, i, 0);
}

// Puts the head behind the networks that are written up to node e, to the last of which the path leads.
fn append(w: &mut [u32], b: usize, e: usize, h: Head, path: &mut [usize; PATH])
    requires { Appends w.old b e h path.old }
    ensures { Appended w.old w.new b e h path.old path.new }
{
    let d = h.deep;
    let i = path[d - 1];
    writing::store(w, b, i, 1 + 2 * (e - i));
    chain(w, b, e, h.net, d, path);
}

// Writes from node o on the trie of the networks from the head on.
pub fn grow(
    w: &mut [u32],
    b: usize,
    o: usize,
    first: Head,
    bytes: &[u8],
    family: u8,
    cursors: &mut [u64; CURSORS],
)
    requires { (t : Trie) × Due w.old b o first bytes.now family cursors.old t }
    ensures { (t : Trie) → Due w.old b o first bytes.now family cursors.old t → w.new ≡ put w.old (place b o) (enc t) }
{
    let mut path = [0usize; PATH];
    chain(w, b, o, first.net, 0, &mut path);
    let mut e = o + (first.net.len as usize + 1);
    let mut h = advance(bytes, family, cursors, first);
    while h.deep != 0 {
        append(w, b, e, h, &mut path);
        e += h.net.len as usize + 1 - h.deep;
        h = advance(bytes, family, cursors, h);
    }
}
