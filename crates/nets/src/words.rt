// The arithmetic of address words.
ghost use Rattle.std.specs.Prelude.{◌≡◌, ◌-◌, ◌*◌, ◌/◌, ◌^◌};
ghost use Rattle.nets.specs.Networks.{width, refusal_of, cleared, has_bit_past, start_of};

use crate::families::width;
use crate::lengths::less_by;
use crate::{IPV4, Net, PrefixBits};

// How many bits of the address stand past the length.
fn past(n: Net) -> u8
    ensures { result ≡ width n.family - n.len }
{
    less_by(width(n.family), n.len)
}

// The word without its k low bits: 0 takes none, 63 all but the highest, 64 and more all.
fn keep(x: u64, k: u8) -> u64
    ensures { result ≡ x / 2 ^ k * 2 ^ k }
{
    if k < 64 { x >> k << k } else { 0 }
}

// The network with the bits past its length cleared: the high word loses its low W - len - 64 bits, the low word its low W - len. In IPv4 (W = 32) that is
// none of the high word; in IPv6 (W = 128):
//
//     length   high word loses   low word loses
//          0   64: all           128: all
//         63    1                 65: all
//         64    0                 64: all
//         65    0                 63: all but the highest bit
//        128    0                  0
pub fn clear(mut n: Net) -> Net
    requires { refusal_of n ≡ 0 }
    ensures { result ≡ cleared n }
{
    let k = past(n);
    n.hi = keep(n.hi, less_by(k, 64));
    n.lo = keep(n.lo, k);
    n
}

// The rule backwards: a bit past the length is set, so that clearing changes a word.
pub fn has_bit_past(n: Net) -> bool
    ensures { result ≡ has_bit_past n }
{
    let k = past(n);
    keep(n.hi, less_by(k, 64)) != n.hi || keep(n.lo, k) != n.lo
}

// The bits of the network, the first of them the highest of the two words.
pub fn start(n: Net) -> PrefixBits
    ensures { result ≡ start_of n }
{
    if n.family == IPV4 {
        return PrefixBits {
            hi: n.lo << 32,
            lo: 0,
            len: n.len,
        };
    }
    PrefixBits {
        hi: n.hi,
        lo: n.lo,
        len: n.len,
    }
}
