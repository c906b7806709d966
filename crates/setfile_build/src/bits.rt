// A bit of an address, and the bits behind it.
ghost use Rattle.std.specs.Prelude.{◌≡◌, false, ◌+◌, ◌<◌, get_or};
ghost use Rattle.nets.specs.Bits.{bits};
ghost use Rattle.nets.specs.Networks.{width, address};
ghost use Rattle.setfile_build.specs.Building.{word_from};

use nets::Net;
use nets::families::width;

// Bit d of a network's address, counted from the highest on.
pub fn bit_at(n: Net, d: usize) -> bool
    requires { d < width n.family }
    ensures { result ≡ get_or (bits (width n.family) (address n)) d false }
{
    let k = width(n.family) as usize - 1 - d;
    if k < 64 {
        return (n.lo >> k) % 2 == 1;
    }
    (n.hi >> (k - 64)) % 2 == 1
}

// The bits from bit d on, as far as the word goes that has it, with bit d the highest; none where the address ends.
pub fn bits_from(n: Net, d: usize) -> u64
    ensures { d < width n.family → result ≡ word_from n d }
{
    let w = width(n.family) as usize;
    if w <= d {
        return 0;
    }
    let k = w - 1 - d;
    if k < 64 {
        return n.lo << (63 - k);
    }
    n.hi << (127 - k)
}

// The bits behind bit d, where rest has those from it on.
pub fn bits_behind(n: Net, d: usize, rest: u64) -> u64
    ensures { d + 1 < width n.family → rest ≡ word_from n d → result ≡ word_from n (d + 1) }
{
    if d == 63 {
        return n.lo;
    }
    rest << 1
}
