// The entries that are held for a batch: where there is no room for another, they are squeezed, and where more than half are left, the later ones go.
ghost use Rattle.std.specs.Prelude.{List, [], ◌∷◌, ◌++◌, true, ◌≡◌, ℕ, ◌≤◌, ◌<◌};
ghost use Rattle.nets.specs.Bits.{Bits};
ghost use Rattle.nets.specs.Lists.{Place};
ghost use Rattle.nets.specs.Networks.{net_bits};
ghost use Rattle.salvage_lists.specs.Ahead.{is_past};
ghost use Rattle.salvage_batch.specs.Buffers.{Clean, Holds, Kept};

use crate::{Hold, order, squeezing};
use nets::Net;
use setfile_entries::reading;

// Makes room for one more.
fn make_room(buf: &mut [u8], family: u8, most: usize, h: Hold) -> Hold
    requires { (S : List Bits) × (a : Place) × Holds family buf.old most S a h }
    ensures kept { Kept family most buf.old buf.new }
    ensures count_lt_most { result.count < most }
    ensures holds { (S : List Bits) (a : Place) → Holds family buf.old most S a h → Holds family buf.new most S a result }
{
    if h.count < most {
        return h;
    }
    let n = squeezing::squeeze(buf, family, h.count);
    let half = most / 2;
    if n <= half {
        return Hold { count: n, ..h };
    }
    let net = reading::entry(buf, family, half - 1);
    Hold {
        count: half,
        edge: Some(net),
    }
}

// Holds one more, unless it begins behind the bound.
pub fn hold(buf: &mut [u8], family: u8, most: usize, h: Hold, x: Net) -> Hold
    requires holds { (S : List Bits) × (a : Place) × Holds family buf.old most S a h }
    requires clean { Clean family x }
    ensures kept { Kept family most buf.old buf.new }
    ensures holds_2 { (S : List Bits) (a : Place) → Holds family buf.old most S a h → is_past a (net_bits x) ≡ true
        → Holds family buf.new most (S ++ (net_bits x ∷ [])) a result }
{
    let g = make_room(buf, family, most, h);
    if order::is_beyond(g.edge, x) {
        return g;
    }
    let k = g.count;
    squeezing::put_entry(buf, family, k, x);
    Hold { count: k + 1, ..g }
}
