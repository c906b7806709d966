// Networks of one address: its bytes, its groups or its two words, the most significant first.
ghost use Rattle.std.specs.Prelude.{◌≡◌, ◌+◌, ◌*◌, ◌^◌, ◌<◌, get_or};
ghost use Rattle.nets.specs.Networks.{width, net_words, net_of, taken_as, judged, big_endian};

use nets::families::width;
use nets::{IPV4, IPV6, Net, Refusal};

// The group of two bytes.
fn group(a: u8, b: u8) -> u16
    ensures { result ≡ a * 2 ^ 8 + b }
{
    a as u16 * 256 + b as u16
}

// The group at i of sixteen bytes.
fn group_at(a: [u8; 16], i: usize) -> u16
    requires { i < 8 }
    ensures { result ≡ get_or a (2 * i) 0 * 2 ^ 8 + get_or a (2 * i + 1) 0 }
{
    group(a[2 * i], a[2 * i + 1])
}

// The word of four groups.
fn word(a: u16, b: u16, c: u16, d: u16) -> u64
    ensures { result ≡ a * 2 ^ 48 + b * 2 ^ 32 + c * 2 ^ 16 + d }
{
    ((a as u64 * 65536 + b as u64) * 65536 + c as u64) * 65536 + d as u64
}

// The network of one IPv4 address, its most significant byte first.
pub fn octets_to_network(a: [u8; 4]) -> Net
    ensures { result ≡ net_of 4 (big_endian 256 a 4) 32 }
{
    let lo = word(0, 0, group(a[0], a[1]), group(a[2], a[3]));
    Net {
        family: IPV4,
        hi: 0,
        lo,
        len: 32,
    }
}

// The network of one IPv6 address of sixteen bytes, the most significant first.
pub fn bytes_to_network(a: [u8; 16]) -> Net
    ensures { result ≡ net_of 6 (big_endian 256 a 16) 128 }
{
    groups_to_network([
        group_at(a, 0),
        group_at(a, 1),
        group_at(a, 2),
        group_at(a, 3),
        group_at(a, 4),
        group_at(a, 5),
        group_at(a, 6),
        group_at(a, 7),
    ])
}

// The network of one IPv6 address of eight groups, the most significant first.
pub fn groups_to_network(a: [u16; 8]) -> Net
    ensures { result ≡ net_of 6 (big_endian 65536 a 8) 128 }
{
    let hi = word(a[0], a[1], a[2], a[3]);
    let lo = word(a[4], a[5], a[6], a[7]);
    Net {
        family: IPV6,
        hi,
        lo,
        len: 128,
    }
}

// The network of one address in two words.
pub fn words_to_network(family: u8, hi: u64, lo: u64) -> Result<Net, Refusal>
    ensures { taken_as result ≡ judged (net_words family hi lo (width family)) }
{
    Net::new(family, hi, lo, width(family))
}
