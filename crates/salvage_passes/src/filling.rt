// What is left, written in address order: batch by batch, each in the room that is left of the result's.
ghost use Rattle.std.specs.Prelude.{List, ◌≡◌, ℕ, ◌+◌, ◌≤◌, ◌<◌, length};
ghost use Rattle.nets.specs.Bits.{Bits};
ghost use Rattle.setfile_format.specs.Files.{file_bytes, most_entries};
ghost use Rattle.salvage_lists.specs.Salvaging.{in_range_in};
ghost use Rattle.salvage_passes.specs.Parts.{Filling};

use crate::counting::{BYTES, ROOM, last};
use salvage_batch::gathering::gather;
use salvage_batch::squeezing::put_entry;
use setfile_entries::reading;

// One batch more, behind those that are there.
fn fill_batch(bytes: &[u8], family: u8, n: usize, m: usize, out: &mut [u8], done: usize) -> usize
    requires n_le_most_entries { (n ≤ most_entries) × (file_bytes family n ≤ length bytes.now) × (done + 1 < m) }
    requires by_index { (v : List ℕ) × (T : List Bits) × Filling family (in_range_in family bytes.now 0 n) T m v out.old done }
    ensures { (done < result) × ((v : List ℕ) (T : List Bits) → Filling family (in_range_in family bytes.now 0 n) T m v out.old done
        → Filling family (in_range_in family bytes.now 0 n) T m v out.new result) }
{
    let after = last(out, family, done);
    let at = reading::entry_bytes(family) * done;
    let b = gather(bytes, family, n, after, &mut out[at..], m - done);
    done + b.count
}

// The last one.
fn fill_last(bytes: &[u8], family: u8, n: usize, m: usize, out: &mut [u8], done: usize)
    requires n_le_most_entries { (n ≤ most_entries) × (file_bytes family n ≤ length bytes.now) × (done + 1 ≡ m) }
    requires by_index { (v : List ℕ) × (T : List Bits) × Filling family (in_range_in family bytes.now 0 n) T m v out.old done }
    ensures { (v : List ℕ) (T : List Bits) → Filling family (in_range_in family bytes.now 0 n) T m v out.old done
        → Filling family (in_range_in family bytes.now 0 n) T m v out.new m }
{
    let after = last(out, family, done);
    let mut local = [0u8; BYTES];
    gather(bytes, family, n, after, &mut local, ROOM);
    let x = reading::entry(&local, family, 0);
    put_entry(out, family, done, x);
}

// Writes the m networks that are left.
pub fn fill(bytes: &[u8], family: u8, n: usize, m: usize, out: &mut [u8])
    requires n_le_most_entries { (n ≤ most_entries) × (file_bytes family n ≤ length bytes.now) }
    requires by_index { (v : List ℕ) × (T : List Bits) × Filling family (in_range_in family bytes.now 0 n) T m v out.old 0 }
    ensures { (v : List ℕ) (T : List Bits) → Filling family (in_range_in family bytes.now 0 n) T m v out.old 0
        → Filling family (in_range_in family bytes.now 0 n) T m v out.new m }
{
    let mut done = 0;
    while done + 1 < m {
        done = fill_batch(bytes, family, n, m, out, done);
    }
    if done < m {
        fill_last(bytes, family, n, m, out, done);
    }
}
