// The head of the lanes: the network that comes next in address order.
ghost use Rattle.std.specs.Prelude.{◌≡◌, List, [], ◌∷◌, ℕ, ◌≤◌, ◌<◌, length};
ghost use Rattle.nets.specs.Bits.{Bits};
ghost use Rattle.setfile_format.specs.Files.{file_bytes, networks_in};
ghost use Rattle.address_order.specs.Streams.{in_address_order};
ghost use Rattle.setfile_lanes.specs.Lanes.{Onward, Ordered};
ghost use Rattle.setfile_order.specs.Flow.{head_as, Behind, Flow};

use crate::Head;
use address_order::sharing::shared;
use nets::Net;
use setfile_entries::reading;
use setfile_lanes::lanes::{CURSORS, LANES, Lane, lane_at, rank, sink};
use setfile_lanes::lining::line_up;

// The lane behind its next entry.
fn onward(bytes: &[u8], family: u8, x: Lane) -> Lane
    requires { (x.next < x.end) × ((x.end ≤ 4194304) × (file_bytes family x.end ≤ length bytes.now)) }
    ensures { Onward bytes.now family x result }
{
    let next = x.next + 1;
    if x.end <= next {
        return Lane {
            next,
            hi: 0,
            lo: 0,
            ..x
        };
    }
    let e = reading::entry(bytes, family, next as usize);
    Lane {
        next,
        hi: e.hi,
        lo: e.lo,
        ..x
    }
}

// The lane of the head, which is the first, goes on behind it and to where it then belongs; without entries it comes last, and is left out.
pub fn move_on(bytes: &[u8], family: u8, cursors: &mut [u64; CURSORS])
    requires { (q : Bits) × (ms : List Bits) × Flow bytes.now family cursors.old (q ∷ ms) }
    ensures { (q : Bits) (ms : List Bits) → Flow bytes.now family cursors.old (q ∷ ms) → Flow bytes.now family cursors.new ms }
{
    let x = onward(bytes, family, lane_at(cursors, 0));
    sink(cursors, 0, x);
    if x.next < x.end {
        return;
    }
    cursors[LANES] = cursors[LANES] - 1;
}

// The head, the next network of the first lane, which comes behind the network `last`; or that there is none.
pub fn head(family: u8, cursors: &[u64; CURSORS], last: Net) -> Head
    requires { (d : List ℕ) × (q : Bits) × (ms : List Bits) × Behind d family cursors.now last q ms }
    ensures { (d : List ℕ) (q : Bits) (ms : List Bits) → Behind d family cursors.now last q ms → result ≡ head_as family q ms }
{
    if cursors[LANES] == 0 {
        return Head {
            deep: 0,
            net: Net {
                family: 0,
                hi: 0,
                lo: 0,
                len: 0,
            },
        };
    }
    let x = lane_at(cursors, 0);
    let net = Net {
        family,
        hi: x.hi,
        lo: x.lo,
        len: x.len as u8,
    };
    Head {
        deep: shared(last, net) as usize + 1,
        net,
    }
}

// Lines the first n entries up, sorts the lanes, and gives the head.
pub fn begin(bytes: &[u8], family: u8, n: usize, cursors: &mut [u64; CURSORS]) -> Head
    requires { Ordered bytes.now family n }
    ensures { Flow bytes.now family cursors.new (in_address_order (networks_in family bytes.now 0 n))
        × (result ≡ head_as family [] (in_address_order (networks_in family bytes.now 0 n))) }
{
    line_up(bytes, family, n, cursors);
    rank(cursors);
    let all = Net {
        family,
        hi: 0,
        lo: 0,
        len: 0,
    };
    head(family, cursors, all)
}
