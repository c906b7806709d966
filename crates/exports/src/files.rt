// Set files without a pool.
ghost use Rattle.std.specs.Prelude.{◌≡◌};
ghost use Rattle.setfile_format.specs.Files.{read_file};
ghost use Rattle.setfile_compare.specs.Comparing.{compared};
ghost use Rattle.salvage.specs.Calls.{salvaged_as};
ghost use Rattle.calls_replies.specs.Replies.{compared_reply};
ghost use Rattle.exports.specs.Exported.{WithRow, counts_after, SavesCounts};

use calls_packed::{first_of, packed, put_row};
use calls_replies::{of_compared, of_salvaged};
use nets::Refusal;
use salvage::Counts;

// Whether two files cover different addresses. The row has the smallest on which they differ. The value is the file that holds it, 1 or 2; or 3 where they cover the same,
// and 4 where the second is the shortest that does.
#[unsafe(no_mangle)]
pub extern "C" fn marlbrace_compare(first: &[u8], second: &[u8], row: &mut [u64; 3]) -> u64
    ensures { WithRow (compared_reply (compared (read_file first.now) (read_file second.now))) result row.old row.new }
{
    let a = of_compared(setfile_compare::compare(first, second));
    put_row(row, a);
    packed(a)
}

// The counts of a salvage that has written a file.
fn put_counts(counts: &mut [u64; 4], a: Result<Counts, Refusal>)
    ensures { counts.new ≡ counts_after counts.old (salvaged_as a) }
{
    match a {
        Ok(c) => {
            *counts = [
                c.read as u64,
                c.trimmed as u64,
                c.long as u64,
                c.covered as u64,
            ];
        }
        Err(_) => {}
    }
}

// Writes the right file of what is left of a file's entries. The value is how many bytes it has, and the counts are the entries read, trimmed, dropped for their length and
// dropped as covered.
#[unsafe(no_mangle)]
pub extern "C" fn marlbrace_salvage(file: &[u8], out: &mut [u8], counts: &mut [u64; 4]) -> u64
    ensures { SavesCounts file.now out.old counts.old result out.new counts.new }
{
    let a = salvage::salvage(file, out);
    put_counts(counts, a);
    packed(first_of(of_salvaged(a)))
}
