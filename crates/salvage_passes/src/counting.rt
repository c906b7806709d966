// How many networks are left: batch by batch, in a local buffer and then, where the result is known to fit, in the room that the networks counted so far will have.
ghost use Rattle.std.specs.Prelude.{true, List, ◌≡◌, ◌≤◌, ◌<◌, length};
ghost use Rattle.nets.specs.Networks.{is_family};
ghost use Rattle.setfile_format.specs.Files.{file_bytes, most_entries};
ghost use Rattle.salvage_lists.specs.Salvaging.{in_range_in};
ghost use Rattle.salvage_batch.specs.Buffers.{Stands, Kept, Room, Ended, place_of};
ghost use Rattle.salvage_passes.specs.Parts.{place_at, Sofar, Onward, Counted};

use nets::Net;
use salvage_batch::gathering::gather;
use setfile_entries::reading;

// Entries of a local buffer, and its bytes, at 17 an entry.
pub const ROOM: usize = 4096;

pub const BYTES: usize = 69648;

// How many networks are counted, the last of them, and whether there may be more behind it.
#[derive(Clone, Copy)]
struct Tail {
    count: usize,
    after: Option<Net>,
    more: bool,
}

// The last of n entries, if there is one.
pub fn last(buf: &[u8], family: u8, n: usize) -> Option<Net>
    requires { Stands family buf.now n }
    ensures { Ended family result × (place_of result ≡ place_at family buf.now n) }
{
    if n == 0 {
        return None;
    }
    Some(reading::entry(buf, family, n - 1))
}

// One batch more, in a buffer with room for so many.
fn count_batch(bytes: &[u8], family: u8, n: usize, buf: &mut [u8], most: usize, t: Tail) -> Tail
    requires n_le_most_entries { (n ≤ most_entries) × (file_bytes family n ≤ length bytes.now) × Room family buf.old most }
    requires sofar { Sofar family (in_range_in family bytes.now 0 n) t × (t.more ≡ true) }
    ensures { Kept family most buf.old buf.new × Onward family (in_range_in family bytes.now 0 n) t result }
{
    let b = gather(bytes, family, n, t.after, buf, most);
    let after = last(buf, family, b.count);
    Tail {
        count: t.count + b.count,
        after,
        more: b.more,
    }
}

// One batch more.
fn count_more(
    bytes: &[u8],
    family: u8,
    n: usize,
    local: &mut [u8],
    out: &mut [u8],
    room: usize,
    t: Tail,
) -> Tail
    requires n_le_most_entries { (n ≤ most_entries) × (file_bytes family n ≤ length bytes.now) × Room family local.old 4096 × (1 ≤ room → file_bytes family room ≤ length out.old) }
    requires sofar { Sofar family (in_range_in family bytes.now 0 n) t × (t.more ≡ true) }
    ensures local_len_unchanged { length local.new ≡ length local.old }
    ensures kept { Kept family t.count out.old out.new × (room ≡ 0 → out.new ≡ out.old) }
    ensures onward { Onward family (in_range_in family bytes.now 0 n) t result }
{
    let c = t.count;
    if ROOM < c {
        if c <= room {
            return count_batch(bytes, family, n, out, c, t);
        }
    }
    count_batch(bytes, family, n, local, ROOM, t)
}

// How many networks are left of n entries. Bytes of the output change only where the file will stand, and only where room says for how many entries it has room.
pub fn count(bytes: &[u8], family: u8, n: usize, out: &mut [u8], room: usize) -> usize
    requires { (is_family family ≡ true) × (n ≤ most_entries) × (file_bytes family n ≤ length bytes.now) × (1 ≤ room → file_bytes family room ≤ length out.old) }
    ensures { Counted family (in_range_in family bytes.now 0 n) out.old room result out.new }
{
    let mut local = [0u8; BYTES];
    let mut t = Tail {
        count: 0,
        after: None,
        more: true,
    };
    while t.more {
        t = count_more(bytes, family, n, &mut local, out, room, t);
    }
    t.count
}
