// The networks of the paths on the way down a trie: that of all addresses, and the halves of one.
ghost use Rattle.std.specs.Prelude.{◌≡◌, true, false, [], ℕ, ◌<◌};
ghost use Rattle.nets.specs.Bits.{Bits};
ghost use Rattle.nets.specs.Networks.{width, net_from};
ghost use Rattle.trie_paths.specs.Spans.{snoc};

use nets::Net;
use nets::families::width;

// The network of all addresses.
pub fn whole(family: u8) -> Net
    ensures { result ≡ net_from family [] }
{
    Net {
        family,
        hi: 0,
        lo: 0,
        len: 0,
    }
}

// The half of a network whose next bit is 0.
pub fn first(n: Net) -> Net
    requires { n.len < width n.family }
    ensures { (f : ℕ) (p : Bits) → n ≡ net_from f p → result ≡ net_from f (snoc p false) }
{
    Net {
        family: n.family,
        hi: n.hi,
        lo: n.lo,
        len: n.len + 1,
    }
}

// The half of a network whose next bit is 1.
pub fn second(n: Net) -> Net
    requires len_bound { n.len < width n.family }
    requires by_index { (f : ℕ) × (p : Bits) × (n ≡ net_from f p) }
    ensures { (f : ℕ) (p : Bits) → n ≡ net_from f p → result ≡ net_from f (snoc p true) }
{
    let k = width(n.family) - 1 - n.len;
    if k < 64 {
        return Net {
            family: n.family,
            hi: n.hi,
            lo: n.lo + (1 << k),
            len: n.len + 1,
        };
    }
    Net {
        family: n.family,
        hi: n.hi + (1 << (k - 64)),
        lo: n.lo,
        len: n.len + 1,
    }
}
