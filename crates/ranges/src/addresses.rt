// Addresses in two words: the one behind an address, and the last one of a network.
ghost use Rattle.std.specs.Prelude.{◌≡◌, ℕ, ◌-◌, ◌^◌, ◌≤◌, length, if◌then◌else◌, nat_eq};
ghost use Rattle.nets.specs.Bits.{Bits};
ghost use Rattle.nets.specs.Networks.{width, net_from};
ghost use Rattle.ranges.specs.Ranges.{block_of};
ghost use Rattle.ranges.specs.Addresses.{address_of, words_of, after_of};

use nets::families::width;
use nets::{IPV4, Net};

// An address in two words; in family 4 the high word is 0.
#[derive(Clone, Copy, Debug, PartialEq, Eq)]
pub struct Address {
    pub hi: u64,
    pub lo: u64,
}

// 1 where a word has just wrapped to zero, else 0.
fn carry(lo: u64) -> u64
    ensures { result ≡ (if nat_eq lo 0 then 1 else 0) }
{
    u64::from(lo == 0)
}

// The address behind a. Behind the last one of the family it is zero: a caller takes that as the end.
pub fn after(family: u8, a: Address) -> Address
    ensures { result ≡ words_of (after_of family (address_of a)) }
{
    let lo = a.lo.wrapping_add(1);
    if family == IPV4 {
        return Address {
            hi: 0,
            lo: lo % 0x1_0000_0000,
        };
    }
    Address {
        hi: a.hi.wrapping_add(carry(lo)),
        lo,
    }
}

// A word with its m low bits set and no others.
fn ones(m: u8) -> u64
    requires { m ≤ 64 }
    ensures { result ≡ 2 ^ m - 1 }
{
    if m < 64 {
        (1 << m) - 1
    } else {
        0xffff_ffff_ffff_ffff
    }
}

// The last address of a network: the bits past its length, which are clear, are set.
pub fn last_of(n: Net) -> Address
    requires { (f : ℕ) × (p : Bits) × (n ≡ net_from f p) × (length p ≤ width f) }
    ensures { (f : ℕ) (p : Bits) → n ≡ net_from f p → length p ≤ width f → result ≡ words_of (block_of (width f) p).last }
{
    let k = width(n.family) - n.len;
    if k < 64 {
        return Address {
            hi: n.hi,
            lo: n.lo + ones(k),
        };
    }
    Address {
        hi: n.hi + ones(k - 64),
        lo: 0xffff_ffff_ffff_ffff,
    }
}
