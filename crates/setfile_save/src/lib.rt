// A set into the bytes of its file. The pool is checked in one pass.
ghost use Rattle.setfile_save.specs.Calls.{Saved};

use listing::seated::tally;
use nets::Refusal;
use pool_check::seats::seat_of;
use saving::write_seated;
use setfile_entries::reading::file_bytes;
use trie_list::lengths::starts;

mod saving;

// Writes the file of a set, and answers how many bytes it has. Bytes past it keep what they had, and a refusal writes nothing.
pub fn save(pool: &[u32], set: u32, out: &mut [u8]) -> Result<u32, Refusal>
    ensures { Saved pool.now set out.old result out.new }
{
    let (_, s) = seat_of(pool, set)?;
    let mut next = tally(pool, s);
    let n = starts(&mut next);
    let size = file_bytes(s.family, n);
    if out.len() < size {
        return Err(Refusal::ShortBuffer);
    }
    write_seated(pool, s, n, &mut next, out);
    Ok(size as u32)
}
