// Addresses in two words: the last one of a network, the one behind an address, and their order.
ghost use Rattle.std.specs.Prelude.{◌≡◌, suc, ◌+◌, ◌-◌, ◌%◌, ◌^◌, nat_lt};
ghost use Rattle.nets.specs.Networks.{width, value, address};
ghost use Rattle.setfile_sides.specs.Sides.{kept, ones};

use nets::Net;
use nets::families::width;
use nets::lengths::less_by;

// An address. Those of 32 bits stand in the low word.
#[derive(Debug, Clone, Copy, PartialEq, Eq, PartialOrd, Ord)]
pub struct Address {
    pub hi: u64,
    pub lo: u64,
}

// The word with its k low bits set: 0 sets none, 64 and more all.
fn fill(x: u64, k: u8) -> u64
    ensures { result ≡ kept x k + ones k }
{
    if k < 64 {
        x | ((1 << k) - 1)
    } else {
        0xffff_ffff_ffff_ffff
    }
}

// The last address of a network.
pub fn last(n: Net) -> Address
    ensures { value result.hi result.lo ≡ kept (address n) (width n.family - n.len) + (2 ^ (width n.family - n.len) - 1) }
{
    let k = less_by(width(n.family), n.len);
    Address {
        hi: fill(n.hi, less_by(k, 64)),
        lo: fill(n.lo, k),
    }
}

// The address behind a; behind the last of all comes zero.
pub fn behind(a: Address) -> Address
    ensures { value result.hi result.lo ≡ suc (value a.hi a.lo) % 2 ^ 128 }
{
    let lo = std::num::wrapping_add_u64(a.lo, 1);
    if lo != 0 {
        return Address { hi: a.hi, lo };
    }
    Address {
        hi: std::num::wrapping_add_u64(a.hi, 1),
        lo,
    }
}

// Whether a comes before b.
pub fn less(a: Address, b: Address) -> bool
    ensures { result ≡ nat_lt (value a.hi a.lo) (value b.hi b.lo) }
{
    a < b
}
