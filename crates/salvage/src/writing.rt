// The file of what is left: counted, judged, written in address order, sorted in the order of a list, headed.
ghost use Rattle.std.specs.Prelude.{List, ◌≡◌, ℕ, ◌≤◌, ◌<◌, length};
ghost use Rattle.nets.specs.Bits.{Bits};
ghost use Rattle.nodes.specs.Words.{put};
ghost use Rattle.setfile_format.specs.Files.{file_bytes, most_entries, file_of};
ghost use Rattle.salvage_lists.specs.Salvaging.{in_range_in, outermost};
ghost use Rattle.salvage.specs.Calls.{Salvages};
ghost use Rattle.salvage_passes.specs.Parts.{Filling};
ghost use Rattle.salvage.specs.Parts.{Readable};

use crate::Counts;
use crate::tallying::tally;
use nets::Refusal;
use salvage_passes::counting::count;
use salvage_passes::filling::fill;
use setfile_entries::reading;
use setfile_sort::sorting::sort;
use setfile_write::saving::put_header;

// The entries for which the output has room for certain, 0 where they are too many.
fn sure(family: u8, n: usize, room: usize) -> usize
    requires { n ≤ most_entries }
    ensures { (file_bytes family n ≤ room → result ≡ n) × (room < file_bytes family n → result ≡ 0) }
{
    if room < reading::file_bytes(family, n) {
        return 0;
    }
    n
}

// Writes the file of the networks, m of them, that are left.
fn write_file(bytes: &[u8], family: u8, n: usize, m: usize, out: &mut [u8])
    requires n_le_most_entries { (n ≤ most_entries) × (file_bytes family n ≤ length bytes.now) }
    requires by_index { (v : List ℕ) × (T : List Bits) × Filling family (in_range_in family bytes.now 0 n) T m v out.old 0 }
    ensures { (v : List ℕ) (T : List Bits) → Filling family (in_range_in family bytes.now 0 n) T m v out.old 0
        → out.new ≡ put v 0 (file_of family (outermost (in_range_in family bytes.now 0 n))) }
{
    fill(bytes, family, n, m, out);
    sort(out, family, m, true);
    put_header(out, family, m);
}

// Writes what is left of the n entries.
pub fn write(bytes: &[u8], family: u8, n: usize, out: &mut [u8]) -> Result<Counts, Refusal>
    requires { Readable bytes.now family n }
    ensures { Salvages bytes.now out.old result out.new }
{
    let t = tally(bytes, family, n);
    let long = t.long as usize;
    let kept = n - long;
    let room = sure(family, kept, out.len());
    let m = count(bytes, family, n, out, room);
    let size = reading::file_bytes(family, m);
    if out.len() < size {
        return Err(Refusal::ShortBuffer);
    }
    write_file(bytes, family, n, m, out);
    let counts = Counts {
        read: n as u32,
        trimmed: t.trimmed,
        long: t.long,
        covered: (kept - m) as u32,
        bytes: size as u32,
    };
    Ok(counts)
}
