// How far one has come who goes through a set.
ghost use Rattle.std.specs.Prelude.{◌≡◌, ◌≤◌};
ghost use Rattle.nets.specs.Lists.{Found};
ghost use Rattle.nets.specs.Tries.{Trie, list_of};
ghost use Rattle.trie_next.specs.Following.{place_of, len_of, next_as};
ghost use Rattle.trie_spots.specs.Spots.{nowhere, before_all, place_in, Right, StandsIn, landed, gone_on, Goes};

use nets::{IPV4, Net, PrefixBits};
use nodes::seats::Seat;
use trie_next::following::next_after;

// Before the first network, at one, or behind the last: `more` says whether it is at a network, `begun` whether it has been at any, and `net` is the last one.
#[derive(Clone, Copy)]
pub struct Spot {
    pub seat: Seat,
    pub begun: bool,
    pub more: bool,
    pub net: Net,
}

// A seat in which no network stands, whatever the words are.
pub fn nowhere() -> Seat
    ensures { result ≡ nowhere }
{
    Seat {
        family: IPV4,
        base: 0,
        first: 1,
        end: 1,
    }
}

// Before the first network of the trie in a seat.
pub fn before_all(seat: Seat) -> Spot
    ensures { result ≡ before_all seat }
{
    Spot {
        seat,
        begun: false,
        more: false,
        net: Net {
            family: 0,
            hi: 0,
            lo: 0,
            len: 0,
        },
    }
}

// The place in the list behind which to look for the next network.
fn place_in(s: Spot) -> Option<PrefixBits>
    requires { Right s }
    ensures { (place_of result ≡ place_in s) × (len_of result ≤ 128) }
{
    if !s.begun {
        return None;
    }
    s.net.prefix_bits().ok()
}

// At the network that was found behind the spot, or behind the last.
pub fn arrive(s: Spot, x: Option<Net>) -> Spot
    ensures { (y : Found) → x ≡ next_as s.seat.family y → result ≡ landed s y }
{
    let seat = s.seat;
    let last = s.net;
    match x {
        Some(net) => Spot {
            seat,
            begun: true,
            more: true,
            net,
        },
        None => Spot {
            seat,
            begun: s.begun,
            more: false,
            net: last,
        },
    }
}

// At the next network, or behind the last.
pub fn go_on(pool: &[u32], s: Spot) -> Spot
    requires { Goes pool.now s }
    ensures { (t : Trie) → StandsIn pool.now s.seat t → result ≡ gone_on (list_of t) s }
{
    let seat = s.seat;
    let place = place_in(s);
    let x = next_after(pool, seat.base, seat.first, seat.end, seat.family, place);
    arrive(s, x)
}
