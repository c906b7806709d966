// The bits of the inner networks, and whether two networks overlap, by the words of their bits.
ghost use Rattle.std.specs.Prelude.{◌≡◌, not, [], ◌∷◌, ◌≤◌, ◌/◌, ◌^◌, Bool, eqb};
ghost use Rattle.nets.specs.Bits.{Bits};
ghost use Rattle.nets.specs.Lists.{any_of};
ghost use Rattle.nets.specs.Networks.{width, bits_left};
ghost use Rattle.inner_nets.specs.Inner.{overlap, inner, inner_nets, is_public};
ghost use Rattle.inner_nets.specs.Parts.{Tests};

use crate::inner_nets;
use nets::{IPV4, IPV6, Net, PrefixBits};

// Two words agree in all but their k low bits.
fn agree(x: u64, y: u64, k: u8) -> bool
    ensures { result ≡ eqb (x / 2 ^ k) (y / 2 ^ k) }
{
    if k < 64 { x >> k == y >> k } else { true }
}

// Two networks have an address in common: they agree in as many bits as the shorter has.
pub fn overlap(p: PrefixBits, q: PrefixBits) -> bool
    requires { (p.len ≤ 128) × (q.len ≤ 128) }
    ensures { result ≡ overlap (bits_left p) (bits_left q) }
{
    let k = 128 - p.len.min(q.len);
    if k < 64 {
        if p.hi != q.hi {
            return false;
        }
        return agree(p.lo, q.lo, k);
    }
    agree(p.hi, q.hi, k - 64)
}

// None of these networks, the inner ones of the family, meets the test, which is asked of the bits of one after another.
fn none_of<F: Fn(PrefixBits) -> bool>(nets: &[Net], family: u32, meets: F) -> bool
    requires inner { nets.now ≡ inner_nets family }
    requires callable { (s : _) → s.len ≤ 128 → s.len ≤ width family → F.pre meets s }
    ensures { (g : Bits → Bool) → Tests (F.post meets) g → result ≡ not (any_of g (inner family)) }
{
    for net in nets {
        if meets(net.prefix_bits().unwrap()) {
            return false;
        }
    }
    true
}

// No inner network of the family meets the test. Each family's networks stand in a call of their own, so that their bits are known where it is compiled:
// one call for both takes more than twice as long.
pub fn none_meets<F: Fn(PrefixBits) -> bool>(family: u32, meets: F) -> bool
    requires { (s : _) → s.len ≤ 128 → s.len ≤ width family → F.pre meets s }
    ensures { (g : Bits → Bool) → Tests (F.post meets) g → result ≡ not (any_of g (inner family)) }
{
    if family == IPV4 as u32 {
        none_of(inner_nets(IPV4 as u32), family, meets)
    } else {
        none_of(inner_nets(IPV6 as u32), family, meets)
    }
}

// The network of these bits overlaps no inner network of the family.
pub fn is_clear(s: PrefixBits, family: u32) -> bool
    requires { s.len ≤ 128 }
    ensures { result ≡ is_public family (bits_left s ∷ []) }
{
    none_meets(family, |q| overlap(s, q))
}
