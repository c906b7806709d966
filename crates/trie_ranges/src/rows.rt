// The ranges of a trie, by one loop over its words: its members come in address order, so each goes on from the range that is open, or opens the next one.
ghost use Rattle.std.specs.Prelude.{◌≡◌, true, [], ◌∷◌, ℕ, ◌+◌, ◌*◌, ◌≤◌, ◌<◌, length};
ghost use Rattle.nets.specs.Bits.{Bits};
ghost use Rattle.nets.specs.Tries.{Trie};
ghost use Rattle.nets.specs.Networks.{width, value, net_from};
ghost use Rattle.nodes.specs.Words.{put};
ghost use Rattle.trie_paths.specs.Spans.{Holds};
ghost use Rattle.trie_ranges.specs.Opening.{goes_on, Takes, Ranged};

use crate::Open;
use nets::Net;
use nodes::steps;
use ranges::addresses::{after, last_of};
use trie_paths::{halves, preorder};

// Whether the address goes on from the open range. Zero is the end and no address to go on from: nothing goes on behind the last address.
fn goes_on(at: Open, hi: u64, lo: u64) -> bool
    ensures { result ≡ goes_on at (value hi lo) }
{
    if at.hi != hi {
        return false;
    }
    if at.lo != lo {
        return false;
    }
    hi != 0 || lo != 0
}

// Writes an address as the m-th, where the rows have a place for it.
fn put_address(rows: &mut [u64], m: usize, hi: u64, lo: u64)
    requires { m < 4294967296 }
    ensures { (length rows.new ≡ length rows.old)
        × (2 * m + 2 ≤ length rows.old → rows.new ≡ put rows.old (2 * m) (hi ∷ lo ∷ [])) }
{
    let k = 2 * m;
    if k + 2 <= rows.len() {
        rows[k] = hi;
        rows[k + 1] = lo;
    }
}

// Takes the next member: the open range now ends with it, or it opens the next one.
pub fn take(at: Open, x: Net, rows: &mut [u64]) -> Open
    requires n_bound { (at.n < 1073741824) × (goes_on at (value x.hi x.lo) ≡ true → 1 ≤ at.n) }
    requires by_index { (f : ℕ) × (p : Bits) × (x ≡ net_from f p) × (length p ≤ width f) }
    ensures { (f : ℕ) (p : Bits) → x ≡ net_from f p → length p ≤ width f → Takes f p at rows.old result rows.new }
{
    let last = last_of(x);
    let next = after(x.family, last);
    if goes_on(at, x.hi, x.lo) {
        put_address(rows, 2 * at.n - 1, last.hi, last.lo);
        return Open {
            n: at.n,
            hi: next.hi,
            lo: next.lo,
        };
    }
    put_address(rows, 2 * at.n, x.hi, x.lo);
    put_address(rows, 2 * at.n + 1, last.hi, last.lo);
    Open {
        n: at.n + 1,
        hi: next.hi,
        lo: next.lo,
    }
}

// Goes through the trie that stands from node i up to node e and writes its ranges, where they fit; answers how many there are. Rows of length 0 are for
// counting.
pub fn write_ranges(w: &[u32], b: usize, i: usize, e: usize, family: u8, rows: &mut [u64]) -> usize
    requires { (t : Trie) × Holds w.now b i e family t }
    ensures { (t : Trie) → Holds w.now b i e family t → Ranged family t rows.old rows.new result }
{
    let mut stack = [0u64; preorder::STACK];
    let mut sp: usize = 1;
    let mut x = halves::whole(family);
    let mut at = Open { n: 0, hi: 0, lo: 0 };
    for k in i..e {
        let y = steps::word(w, b, k);
        if y == 0 {
            at = take(at, x, rows);
            sp -= 1;
            x = preorder::row_at(&stack, sp, family);
        } else {
            x = preorder::down(y, x, sp, &mut stack);
            sp += preorder::forks(y);
        }
    }
    at.n
}
