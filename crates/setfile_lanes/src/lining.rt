// Lining up: a lane for each length that the file has.
ghost use Rattle.std.specs.Prelude.{◌≡◌, List, ℕ, ◌<◌, true, false};
ghost use Rattle.setfile_format.specs.Files.{entry_net};
ghost use Rattle.setfile_lanes.specs.Lanes.{Ordered, Alike, Adds, Lined};

use crate::lanes::{CURSORS, LANES, Lane, put_lane};
use nets::Net;
use setfile_entries::reading;

// One of two numbers.
fn either(first: bool, a: usize, b: usize) -> usize
    ensures { (first ≡ true → result ≡ a) × (first ≡ false → result ≡ b) }
{
    if first { a } else { b }
}

// Where the entries of the length of entry i end: the lengths do not fall, so that the place is found by halves.
fn run_end(bytes: &[u8], family: u8, n: usize, i: usize, len: u8) -> usize
    requires { Ordered bytes.now family n × ((i < n) × (len ≡ (entry_net family bytes.now i).len)) }
    ensures { Alike bytes.now family n i result }
{
    let mut low = i;
    let mut high = n;
    while low + 1 < high {
        let mid = (low + high) / 2;
        let same = reading::entry(bytes, family, mid).len == len;
        low = either(same, mid, low);
        high = either(same, high, mid);
    }
    low + 1
}

// A lane for the entries from i, which is x, up to end, all of one length that no lane has.
fn add_lane(cursors: &mut [u64; CURSORS], i: usize, end: usize, x: Net)
    requires { (d : List ℕ) × (f : ℕ) × (n : ℕ) × Adds d f n cursors.old i end x }
    ensures { (d : List ℕ) (f n : ℕ) → Adds d f n cursors.old i end x → Lined d f n cursors.new end }
{
    let n = cursors[LANES] as usize;
    let lane = Lane {
        next: i as u64,
        end: end as u64,
        hi: x.hi,
        lo: x.lo,
        len: x.len as u64,
    };
    put_lane(cursors, n, lane);
    cursors[LANES] = n as u64 + 1;
}

// The lanes of the first n entries.
pub fn line_up(bytes: &[u8], family: u8, n: usize, cursors: &mut [u64; CURSORS])
    requires { Ordered bytes.now family n }
    ensures { Lined bytes.now family n cursors.new n }
{
    *cursors = [0u64; CURSORS];
    let mut i = 0;
    while i < n {
        let x = reading::entry(bytes, family, i);
        let end = run_end(bytes, family, n, i, x.len);
        add_lane(cursors, i, end, x);
        i = end;
    }
}
