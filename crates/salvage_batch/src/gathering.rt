// One batch: a pass over the entries of a file, of which the first in address order are held.
ghost use Rattle.std.specs.Prelude.{List, ◌≡◌, ℕ, ◌+◌, ◌≤◌, ◌<◌, length};
ghost use Rattle.nets.specs.Bits.{Bits};
ghost use Rattle.nets.specs.Lists.{Place};
ghost use Rattle.setfile_format.specs.Files.{file_bytes, most_entries};
ghost use Rattle.salvage_lists.specs.Salvaging.{in_range_in};
ghost use Rattle.salvage_batch.specs.Buffers.{Clean, Ended, Room, Holds, Kept, Gathers, place_of};

use crate::holding::hold;
use crate::squeezing::squeeze;
use crate::{Batch, Hold, order};
use nets::Net;
use setfile_entries::reading;

// Takes entry i in, where its length is in range and it begins behind the place.
fn take(
    bytes: &[u8],
    family: u8,
    i: usize,
    after: Option<Net>,
    buf: &mut [u8],
    most: usize,
    h: Hold,
) -> Hold
    requires i_lt_most_entries { (i < most_entries) × (file_bytes family (i + 1) ≤ length bytes.now) × Ended family after }
    requires holds { Holds family buf.old most (in_range_in family bytes.now 0 i) (place_of after) h }
    ensures kept { Kept family most buf.old buf.new }
    ensures holds_2 { Holds family buf.new most (in_range_in family bytes.now 0 (i + 1)) (place_of after) result }
{
    let taken = reading::entry(bytes, family, i).to_network();
    match taken {
        Err(_) => h,
        Ok((x, _)) => {
            if !order::is_past(after, x) {
                return h;
            }
            hold(buf, family, most, h, x)
        }
    }
}

// What is left of the first n entries behind a place, as many as there is room for, from entry 0 of the buffer on in address order.
pub fn gather(
    bytes: &[u8],
    family: u8,
    n: usize,
    after: Option<Net>,
    buf: &mut [u8],
    most: usize,
) -> Batch
    requires { (n ≤ most_entries) × (file_bytes family n ≤ length bytes.now) × Ended family after × Room family buf.old most }
    ensures { Gathers family (in_range_in family bytes.now 0 n) (place_of after) most buf.old result buf.new }
{
    let mut h = Hold {
        count: 0,
        edge: None,
    };
    for i in 0..n {
        h = take(bytes, family, i, after, buf, most, h);
    }
    let more = h.edge.is_some();
    let count = squeeze(buf, family, h.count);
    Batch { count, more }
}
