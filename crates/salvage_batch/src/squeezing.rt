// Entries in a buffer, sorted by address and thinned: what is left is a chain.
ghost use Rattle.std.specs.Prelude.{◌≡◌, List, ℕ, ◌+◌, ◌≤◌, ◌<◌, length};
ghost use Rattle.nodes.specs.Words.{put};
ghost use Rattle.nets.specs.Networks.{net_bits};
ghost use Rattle.setfile_format.specs.Files.{file_bytes, entry_at, entry_of};
ghost use Rattle.salvage_batch.specs.Buffers.{Clean, Stands, Thins, Thinning, Squeezes};

use crate::order;
use nets::Net;
use setfile_entries::reading;
use setfile_put::writing::put_at;
use setfile_sort::sorting::sort;

// How many entries are kept, and the last of them.
#[derive(Clone, Copy)]
struct Survivors {
    count: usize,
    last: Net,
}

// Writes entry k.
pub fn put_entry(buf: &mut [u8], family: u8, k: usize, x: Net)
    requires { Clean family x × (k < 4194304) × (file_bytes family (k + 1) ≤ length buf.old) }
    ensures { buf.new ≡ put buf.old (entry_at family k) (entry_of family (net_bits x)) }
{
    put_at(buf, reading::file_bytes(family, k), x);
}

// Entry i behind those kept so far: dropped where it lies inside the last one of them, else kept.
fn thin_one(buf: &mut [u8], family: u8, i: usize, t: Survivors) -> Survivors
    requires { (n : ℕ) × (v : List ℕ) × Thinning family n v i buf.old t × (i < n) }
    ensures { (n : ℕ) (v : List ℕ) → Thinning family n v i buf.old t → i < n → Thinning family n v (i + 1) buf.new result }
{
    let x = reading::entry(buf, family, i);
    if order::is_in(t.last, x) {
        return t;
    }
    let k = t.count;
    put_entry(buf, family, k, x);
    Survivors {
        count: k + 1,
        last: x,
    }
}

// Keeps, of entries in address order, each that does not lie inside the last one kept, and says how many these are.
fn thin(buf: &mut [u8], family: u8, n: usize) -> usize
    requires { Stands family buf.old n }
    ensures { Thins family n buf.old result buf.new }
{
    if n == 0 {
        return 0;
    }
    let mut t = Survivors {
        count: 1,
        last: reading::entry(buf, family, 0),
    };
    for i in 1..n {
        t = thin_one(buf, family, i, t);
    }
    t.count
}

// Sorts and thins.
pub fn squeeze(buf: &mut [u8], family: u8, n: usize) -> usize
    requires { Stands family buf.old n }
    ensures { Squeezes family n buf.old result buf.new }
{
    sort(buf, family, n, false);
    thin(buf, family, n)
}
