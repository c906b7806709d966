// Putting a path into a trie that stands in the used words.
#![tactic(auto)]

ghost use Rattle.std.specs.Prelude.{◌≡◌, [], ◌+◌, ◌≤◌, ◌<◌, length};
ghost use Rattle.nets.specs.Networks.{bits_left};
ghost use Rattle.nodes.specs.Words.{put, place, enc, chain};
ghost use Rattle.trie_insert.specs.Insert.{Held, Insertable, InsertSize, Inserted};

use nets::PrefixBits;
use nodes::steps::View;
use nodes::{steps, writing};

// The nodes of the trie that stands from node i up to node e once the path s is in. The way down ends at the part that changes.
pub fn insert_size(w: &[u32], b: usize, i: usize, e: usize, s: PrefixBits) -> usize
    requires { (s.len ≤ 128) × Held w.now b i e }
    ensures { InsertSize w.now b i e (bits_left s) result }
{
    let n = e - i;
    let mut from = i;
    let mut to = e;
    let mut p = s;
    while let Some((bit, rest)) = p.next() {
        let v = steps::look(w, b, from, to);
        match v {
            View::Nothing => return n + (p.len as usize + 1),
            View::Leaf => return n,
            View::Inner(m) => {
                p = rest;
                if bit {
                    // A way out here makes it a branch on the bit, so that a step to the first child waits for no word.
                    if m == to {
                        return n + (rest.len as usize + 1);
                    }
                    from = m;
                } else {
                    from += 1;
                    to = m;
                }
            }
        }
    }
    n - (to - from) + 1
}

// Writes the path s as a chain of nodes, from node i on.
fn chain(w: &mut [u32], b: usize, i: usize, s: PrefixBits)
    requires { (1 ≤ i) × ((s.len ≤ 128) × (place b i + s.len < length w.old)) }
    ensures { w.new ≡ put w.old (place b i) (enc (chain (bits_left s))) }
{
    let mut k = i;
    let mut p = s;
    while let Some((bit, rest)) = p.next() {
        writing::store(w, b, k, 1 + bit as usize);
        k += 1;
        p = rest;
    }
    writing::store(w, b, k, 0);
}

// Puts the chain of the path s where no trie stands.
fn grow(w: &mut [u32], b: usize, i: usize, u: usize, s: PrefixBits) -> usize
    requires { (s.len ≤ 128) × Insertable w.old b i i u (bits_left s) }
    ensures { Inserted w.old w.new b i i u (bits_left s) result }
{
    let n = s.len as usize + 1;
    let k = b + (i - 1);
    writing::shift(w, k, k + n, u - i);
    chain(w, b, i, s);
    i + n
}

// Puts a leaf in the place of the trie that stands from node i up to node e.
fn leaf(w: &mut [u32], b: usize, i: usize, e: usize, u: usize) -> usize
    requires { Insertable w.old b i e u [] }
    ensures { Inserted w.old w.new b i e u [] result }
{
    writing::shift(w, b + (e - 1), b + i, u - e);
    writing::store(w, b, i, 0);
    i + 1
}

// Puts the path s into the trie that stands from node i up to node e, where the words up to node u are in use. Answers the trie's new end.
pub fn insert(w: &mut [u32], b: usize, i: usize, e: usize, u: usize, s: PrefixBits) -> usize
    requires { (s.len ≤ 128) × Insertable w.old b i e u (bits_left s) }
    ensures { Inserted w.old w.new b i e u (bits_left s) result }
{
    let next = s.next();
    match next {
        None => leaf(w, b, i, e, u),
        Some((bit, behind)) => {
            // Field by field: what a whole copy takes along between the fields is waited for at each step.
            let rest = PrefixBits {
                hi: behind.hi,
                lo: behind.lo,
                len: behind.len,
            };
            let v = steps::look(w, b, i, e);
            match v {
                View::Nothing => grow(w, b, i, u, s),
                View::Leaf => e,
                View::Inner(m) => {
                    if bit {
                        let z = insert(w, b, m, e, u, rest);
                        writing::links(w, b, i, m, z);
                        return z;
                    }
                    let y = insert(w, b, i + 1, m, u, rest);
                    let z = y + (e - m);
                    writing::links(w, b, i, y, z);
                    z
                }
            }
        }
    }
}
