// Lines of IPv6 networks: groups joined by colons, the longest run of zeros left out between two of them, a slash and the length.
ghost use Rattle.std.specs.Prelude.{◌≡◌, ◌≤◌, length};
ghost use Rattle.text_decimal.specs.Places.{Stored};
ghost use Rattle.text_ipv6_write.specs.Ipv6.{text_of, line_as6};

use crate::{groups, joined, runs};
use nets::Net;
use text_decimal::decimal;

// How many bytes the text of the groups has.
fn text_length(g: [u16; 8]) -> usize
    ensures value { result ≡ length (text_of g) }
    ensures upper_bound { result ≤ 82 }
{
    let r = runs::longest(g);
    if r.count < runs::SHORTEST {
        return joined::length(g, 0, 8);
    }
    joined::length(g, 0, r.at) + 2 + joined::length(g, r.at + r.count, 8)
}

// How many bytes the line of the numbers has, as they stand.
pub fn length(net: Net) -> usize
    ensures { result ≡ length (line_as6 net) }
{
    text_length(groups::of(net)) + 1 + decimal::length(net.len)
}

// Writes the text of the groups from the first byte on, and gives the place behind it.
fn put_text(out: &mut [u8], g: [u16; 8]) -> usize
    requires { length (text_of g) ≤ length out.old }
    ensures { Stored out.old 0 (text_of g) out.new result }
{
    let r = runs::longest(g);
    if r.count < runs::SHORTEST {
        return joined::put(out, 0, g, 0, 8);
    }
    let left = joined::put(out, 0, g, 0, r.at);
    out[left] = b':';
    out[left + 1] = b':';
    joined::put(out, left + 2, g, r.at + r.count, 8)
}

// Writes the line of the numbers from the first byte on, and gives the place behind it.
pub fn write(net: Net, out: &mut [u8]) -> usize
    requires { length (line_as6 net) ≤ length out.old }
    ensures { Stored out.old 0 (line_as6 net) out.new result }
{
    let end = put_text(out, groups::of(net));
    out[end] = b'/';
    decimal::put(out, end + 1, net.len)
}
