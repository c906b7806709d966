// The edges of a range on the way down the bits: the address in front of its first one, and the one behind its last.
ghost use Rattle.std.specs.Prelude.{◌≡◌, Bool, true, not, [], ◌∷◌, ℕ, ◌-◌, ◌^◌, ◌<◌, eqb};
ghost use Rattle.nets.specs.Bits.{Bits, bits};
ghost use Rattle.nets.specs.Networks.{is_family, width, net_from};
ghost use Rattle.ranges.specs.Addresses.{address_of, words_of, after_of};
ghost use Rattle.trie_paths.specs.Spans.{snoc};
ghost use Rattle.setfile_range.specs.Edges.{On};

use nets::families::width;
use nets::{Net, PrefixBits};
use ranges::addresses::{Address, after};
use trie_paths::halves;

// An edge: whether there is one, the network of the bits that are done, and the bits that are still to come.
#[derive(Clone, Copy)]
pub struct Edge {
    pub there: bool,
    pub path: Net,
    pub ahead: PrefixBits,
}

// The address in front of a. In front of zero there is none, and it answers zero.
fn in_front(a: Address) -> Address
    ensures { result ≡ words_of (address_of a - 1) }
{
    if a.lo != 0 {
        return Address {
            hi: a.hi,
            lo: a.lo - 1,
        };
    }
    if a.hi != 0 {
        return Address {
            hi: a.hi - 1,
            lo: 0xffff_ffff_ffff_ffff,
        };
    }
    a
}

// Whether an address is not zero.
fn is_some(a: Address) -> bool
    ensures { result ≡ not (eqb (address_of a) 0) }
{
    if a.hi != 0 {
        return true;
    }
    a.lo != 0
}

// The edge at an address of the family, before its first bit.
fn edge_at(family: u8, there: bool, a: Address) -> Edge
    requires { (is_family family ≡ true) × (address_of a < 2 ^ width family) }
    ensures { (result.there ≡ there) × On family result [] (bits (width family) (address_of a)) }
{
    let n = Net {
        family,
        hi: a.hi,
        lo: a.lo,
        len: width(family),
    };
    let path = halves::whole(family);
    let prefix = n.prefix_bits();
    match prefix {
        Ok(ahead) => Edge { there, path, ahead },
        Err(_) => Edge {
            there,
            path,
            ahead: PrefixBits {
                hi: 0,
                lo: 0,
                len: 0,
            },
        },
    }
}

// The left edge of a range that begins at a: none where that is zero.
pub fn left_edge(family: u8, a: Address) -> Edge
    requires { (is_family family ≡ true) × (address_of a < 2 ^ width family) }
    ensures { (result.there ≡ not (eqb (address_of a) 0)) × On family result [] (bits (width family) (address_of a - 1)) }
{
    edge_at(family, is_some(a), in_front(a))
}

// The right edge of a range that ends at a: none where the address behind it wraps to zero.
pub fn right_edge(family: u8, a: Address) -> Edge
    requires { (is_family family ≡ true) × (address_of a < 2 ^ width family) }
    ensures { (result.there ≡ not (eqb (after_of family (address_of a)) 0)) × On family result [] (bits (width family) (after_of family (address_of a))) }
{
    let b = after(family, a);
    edge_at(family, is_some(b), b)
}

// The half of a network by the next bit.
pub fn down(n: Net, bit: bool) -> Net
    requires { (f : ℕ) × (p : Bits) × (n ≡ net_from f p) × (n.len < width n.family) }
    ensures { (f : ℕ) (p : Bits) → n ≡ net_from f p → result ≡ net_from f (snoc p bit) }
{
    if bit {
        return halves::second(n);
    }
    halves::first(n)
}

// The next bit of an edge.
pub fn bit_of(x: Edge) -> bool
    requires { (f : ℕ) × (p : Bits) × (c : Bool) × (q : Bits) × On f x p (c ∷ q) }
    ensures { (f : ℕ) (p : Bits) (c : Bool) (q : Bits) → On f x p (c ∷ q) → result ≡ c }
{
    let s = x.ahead;
    let next = s.next();
    match next {
        Some((bit, _)) => bit,
        None => false,
    }
}

// The edge one bit further down.
pub fn onward(x: Edge) -> Edge
    requires { (f : ℕ) × (p : Bits) × (c : Bool) × (q : Bits) × On f x p (c ∷ q) }
    ensures { (result.there ≡ x.there) × ((f : ℕ) (p : Bits) (c : Bool) (q : Bits) → On f x p (c ∷ q) → On f result (snoc p c) q) }
{
    let s = x.ahead;
    let next = s.next();
    match next {
        Some((bit, ahead)) => {
            let path = down(x.path, bit);
            Edge {
                there: x.there,
                path,
                ahead,
            }
        }
        None => x,
    }
}
