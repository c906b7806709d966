// The groups of an address up to a double colon and behind it, and the network that they make.
ghost use Rattle.std.specs.Prelude.{cond, ◌≡◌, ◌<◌, eqb, leb, drop, get_or, is_some, Some, None};
ghost use Rattle.text_ipv6_read.specs.Ipv6.{ipv6};
ghost use Rattle.text_ipv6_read.specs.Reader.{starts_double, read_address, laid};
ghost use Rattle.text_ipv6_read.specs.Places.{outline_words, placed, gap_of, Sized, outline_as};

use addresses::groups_to_network;
use nets::Net;
use text_decimal::cursor::byte_at;
use text_ipv6_runs::runs;
use text_ipv6_runs::runs::Run;

// The groups and how many; behind how many of them a double colon stands, if one does; and the place behind the address.
#[derive(Clone, Copy)]
pub struct Outline {
    pub groups: [u16; 8],
    pub count: usize,
    pub gap: Option<usize>,
    pub at: usize,
}

// Whether a double colon stands at the place.
fn double_at(s: &[u8], at: usize) -> bool
    ensures { result ≡ starts_double (drop at s.now) }
{
    byte_at(s, at, b':') && byte_at(s, at + 1, b':')
}

// A run that is the whole address.
fn whole(r: Run) -> Outline
    ensures { result ≡ outline_words r.groups r.count None r.at }
{
    let groups = r.groups;
    Outline {
        groups,
        count: r.count,
        gap: None,
        at: r.at,
    }
}

// A run behind the double colon that follows so many groups.
fn behind(gap: usize, r: Run) -> Outline
    ensures { result ≡ outline_words r.groups r.count (Some gap) r.at }
{
    let groups = r.groups;
    Outline {
        groups,
        count: r.count,
        gap: Some(gap),
        at: r.at,
    }
}

// The address that the bytes begin with.
pub fn read(s: &[u8]) -> Outline
    ensures { Sized result × (outline_as s.now result ≡ read_address s.now) }
{
    let front = runs::read(s, [0; 8], 0, 0);
    if front.stand.is_quad() {
        return whole(front);
    }
    let at = front.at;
    if !double_at(s, at) {
        return whole(front);
    }
    let groups = front.groups;
    let gap = front.count;
    behind(gap, runs::read(s, groups, gap, at + 2))
}

// Whether the groups make an address: eight of them, or at most seven around a double colon.
pub fn is_whole(o: Outline) -> bool
    ensures { result ≡ cond (is_some o.gap) (leb o.count 7) (eqb o.count 8) }
{
    match o.gap {
        Some(_) => o.count <= 7,
        None => o.count == 8,
    }
}

// Group i of the address.
fn group_at(o: Outline, i: usize) -> u16
    requires { Sized o × (i < 8) }
    ensures { result ≡ get_or (laid (placed o) (gap_of o)) i 0 }
{
    let groups = o.groups;
    let gap = o.gap.unwrap_or(o.count);
    if i < gap {
        return groups[i];
    }
    let zeros = 8 - o.count;
    if i < gap + zeros {
        return 0;
    }
    groups[i - zeros]
}

// The network of the address and a length.
pub fn network(o: Outline, len: u8) -> Net
    requires { Sized o }
    ensures { result ≡ ipv6 (laid (placed o) (gap_of o)) len }
{
    Net {
        len,
        ..groups_to_network([
            group_at(o, 0),
            group_at(o, 1),
            group_at(o, 2),
            group_at(o, 3),
            group_at(o, 4),
            group_at(o, 5),
            group_at(o, 6),
            group_at(o, 7),
        ])
    }
}
