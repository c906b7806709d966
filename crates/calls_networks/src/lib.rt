// The calls that need no pool.
ghost use Rattle.std.specs.Prelude.{◌≡◌, ◌≤◌, length};
ghost use Rattle.nets.specs.Networks.{bits_words};
ghost use Rattle.calls_networks.specs.Networks.{octets_of, bytes_of, groups_of, made_of, network_of};

use calls_bytes::bytes::{byte_at, u16_at};
use calls_bytes::records::CALL;
use calls_bytes::{Call, Reply, table};
use calls_replies::{of_bit, of_entered, of_net, of_prefix, of_taken};
use nets::{Net, PrefixBits};

// The network of the bytes of a.
fn octets(s: &[u8]) -> Net
    ensures { result ≡ octets_of s.now }
{
    addresses::octets_to_network([byte_at(s, 1), byte_at(s, 2), byte_at(s, 3), byte_at(s, 4)])
}

// The network of the bytes of hi and lo.
fn sixteen(s: &[u8]) -> Net
    ensures { result ≡ bytes_of s.now }
{
    addresses::bytes_to_network([
        byte_at(s, 14),
        byte_at(s, 15),
        byte_at(s, 16),
        byte_at(s, 17),
        byte_at(s, 18),
        byte_at(s, 19),
        byte_at(s, 20),
        byte_at(s, 21),
        byte_at(s, 22),
        byte_at(s, 23),
        byte_at(s, 24),
        byte_at(s, 25),
        byte_at(s, 26),
        byte_at(s, 27),
        byte_at(s, 28),
        byte_at(s, 29),
    ])
}

// The network of the same bytes, two to a group.
fn groups(s: &[u8]) -> Net
    ensures { result ≡ groups_of s.now }
{
    addresses::groups_to_network([
        u16_at(s, 14),
        u16_at(s, 16),
        u16_at(s, 18),
        u16_at(s, 20),
        u16_at(s, 22),
        u16_at(s, 24),
        u16_at(s, 26),
        u16_at(s, 28),
    ])
}

// What the bit iterator has left, as the call gives it.
fn bits_of(net: Net) -> PrefixBits
    ensures { result ≡ bits_words net.hi net.lo net.len }
{
    PrefixBits {
        hi: net.hi,
        lo: net.lo,
        len: net.len,
    }
}

// A network of an address, by its code; that of two words is the one that is left.
fn made(s: &[u8], c: Call) -> Reply
    ensures { result ≡ made_of s.now c }
{
    let code = c.code;
    match code {
        table::OCTETS => of_net(octets(s)),
        table::BYTES => of_net(sixteen(s)),
        table::GROUPS => of_net(groups(s)),
        _ => of_taken(addresses::words_to_network(c.net.family, c.net.hi, c.net.lo)),
    }
}

// A call without a pool, by its code; the networks of addresses are left.
pub fn network(s: &[u8], c: Call) -> Reply
    requires { 35 ≤ length s.now }
    ensures { result ≡ network_of s.now c }
{
    let code = c.code;
    let net = c.net;
    match code {
        table::READ_LINE => of_entered(text::read_line(&s[CALL..])),
        table::NEW => of_taken(Net::new(net.family, net.hi, net.lo, net.len)),
        table::TO_NETWORK => of_entered(net.to_network()),
        table::WITH_NEW_PREFIX => of_taken(net.with_new_prefix((c.a % 256) as u8)),
        table::PREFIX_BITS => of_prefix(net.prefix_bits()),
        table::NEXT_BIT => of_bit(bits_of(net).next()),
        table::READ_LINE_6 => of_entered(text_ipv6_read::read_line(&s[CALL..])),
        table::READ_LINE_EITHER => of_entered(text_either::read_line(&s[CALL..])),
        _ => made(s, c),
    }
}
