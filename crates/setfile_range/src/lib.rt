// The file of a range: the fewest networks that have exactly its addresses, in the order of a set file. At most two are of one length: each edge of the range, once they have parted, leaves
// one half of a block aside.
ghost use Rattle.std.specs.Prelude.{◌≡◌, Bool, true, not, cond, ◌||◌, List, [], ◌∷◌, ℕ, ◌≤◌, length};
ghost use Rattle.std.specs.Bool.{beq as same};
ghost use Rattle.nets.specs.Bits.{Bits};
ghost use Rattle.nets.specs.Tries.{list_of};
ghost use Rattle.nets.specs.Networks.{is_family};
ghost use Rattle.nodes.specs.Words.{put};
ghost use Rattle.setfile_format.specs.Files.{file_bytes};
ghost use Rattle.setfile_range.specs.Edges.{opened, aside_of, asides, On, Fits, Lays, Both, Edges, Rangeable, range_file};

use edges::{Edge, bit_of, down, left_edge, onward, right_edge};
use ranges::addresses::Address;
use setfile_entries::reading::file_bytes;
use setfile_put::writing::put_at;
use setfile_write::saving::put_header;
use trie_paths::halves;

mod edges;

// The bytes of the largest file of a range: 254 networks of IPv6.
pub const BYTES: usize = 4334;

// Writes, behind n entries, the half that an edge leaves aside at its next bit, if it goes by `bit` there and the edges have parted. Answers how many entries there are then.
fn put_aside(out: &mut [u8], n: usize, apart: bool, x: Edge, bit: bool) -> usize
    requires { (f : ℕ) × (p : Bits) × (c : Bool) × (q : Bits) × On f x p (c ∷ q) × Fits f (aside_of apart x.there bit p c) n (length out.old) }
    ensures { (f : ℕ) (p : Bits) (c : Bool) (q : Bits) → On f x p (c ∷ q)
        → Lays f (aside_of apart x.there bit p c) n out.old result out.new }
{
    if !apart {
        return n;
    }
    if !x.there {
        return n;
    }
    if bit_of(x) != bit {
        return n;
    }
    let y = down(x.path, !bit);
    put_at(out, file_bytes(y.family, n), y);
    n + 1
}

// Writes what both edges leave aside at their next bits: the left one's stands before the right one's.
fn put_asides(out: &mut [u8], n: usize, apart: bool, x: Edge, y: Edge) -> usize
    requires { (f : ℕ) × (p : Bits) × (q : Bits) × (c : Bool) × (d : Bool) × (r : Bits) × (s : Bits) × Both f x y p q c d r s
        × Fits f (asides apart x.there y.there p q c d) n (length out.old) }
    ensures { (f : ℕ) (p q : Bits) (c d : Bool) (r s : Bits) → Both f x y p q c d r s
        → Lays f (asides apart x.there y.there p q c d) n out.old result out.new }
{
    let k = put_aside(out, n, apart, x, false);
    put_aside(out, k, apart, y, true)
}

// Whether the edges have parted once their next bits are done.
fn parts(apart: bool, x: Edge, y: Edge) -> bool
    requires { (f : ℕ) × (p : Bits) × (q : Bits) × (c : Bool) × (d : Bool) × (r : Bits) × (s : Bits) × Both f x y p q c d r s }
    ensures { (f : ℕ) (p q : Bits) (c d : Bool) (r s : Bits) → Both f x y p q c d r s → result ≡ (apart || not (same c d)) }
{
    if apart {
        return true;
    }
    bit_of(x) != bit_of(y)
}

// Writes the network of all addresses where no edge is there.
fn put_whole(out: &mut [u8], family: u8, x: bool, y: bool) -> usize
    requires { Fits family (cond (x || y) [] ([] ∷ [])) 0 (length out.old) }
    ensures { Lays family (cond (x || y) [] ([] ∷ [])) 0 out.old result out.new }
{
    if x {
        return 0;
    }
    if y {
        return 0;
    }
    put_at(out, file_bytes(family, 0), halves::whole(family));
    1
}

// Whether an edge is missing.
fn is_missing(x: bool, y: bool) -> bool
    ensures { result ≡ (not x || not y) }
{
    !x || !y
}

// Writes the networks between two edges, length by length, and answers how many they are.
fn put_between(out: &mut [u8], family: u8, x: Edge, y: Edge) -> usize
    requires { (p : Bits) × (q : Bits) × Edges family x y p q (length out.old) }
    ensures { (p q : Bits) → Edges family x y p q (length out.old)
        → Lays family (list_of (opened x.there y.there p q)) 0 out.old result out.new }
{
    let mut l = x;
    let mut r = y;
    let mut n = put_whole(out, family, l.there, r.there);
    let mut apart = is_missing(l.there, r.there);
    while l.ahead.len != 0 {
        n = put_asides(out, n, apart, l, r);
        apart = parts(apart, l, r);
        l = onward(l);
        r = onward(r);
    }
    n
}

// Writes the file of the range from one address to another, and answers how many bytes it has. What stands behind it stays.
pub fn range_file(family: u8, first: Address, last: Address, out: &mut [u8]) -> usize
    requires { Rangeable family first last (length out.old) }
    ensures { (result ≡ length (range_file family first last)) × (out.new ≡ put out.old 0 (range_file family first last)) }
{
    let x = left_edge(family, first);
    let y = right_edge(family, last);
    let n = put_between(out, family, x, y);
    put_header(out, family, n);
    file_bytes(family, n)
}
