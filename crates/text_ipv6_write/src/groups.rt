// The eight groups of an address.
ghost use Rattle.std.specs.Prelude.{◌≡◌, ◌*◌, ◌/◌, ◌%◌, ◌^◌, ◌<◌};
ghost use Rattle.nets.specs.Networks.{address};
ghost use Rattle.text_ipv6_write.specs.Ipv6.{groups_of};

use nets::Net;

// Group k of a word of the address, from its lowest on.
fn group(word: u64, k: u32) -> u16
    requires { k < 4 }
    ensures { result ≡ word / 2 ^ (16 * k) % 65536 }
{
    ((word >> 16 * k) % 65536) as u16
}

// The groups of an address, the highest first.
pub fn of(net: Net) -> [u16; 8]
    ensures { result ≡ groups_of (address net) }
{
    let hi = net.hi;
    let lo = net.lo;
    [
        group(hi, 3),
        group(hi, 2),
        group(hi, 1),
        group(hi, 0),
        group(lo, 3),
        group(lo, 2),
        group(lo, 1),
        group(lo, 0),
    ]
}
