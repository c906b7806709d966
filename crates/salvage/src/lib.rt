// Salvage of set files: the right file of what is left of the entries of a file.
ghost use Rattle.salvage.specs.Calls.{Salvages};

use nets::Refusal;
use nets::families::is_family;
use setfile_entries::reading;
use writing::write;

mod tallying;
mod writing;

// What a salvage has done: the entries read, those of which a bit past the length was cleared, those dropped for their length, those dropped as covered by others, and the bytes written.
#[derive(Clone, Copy)]
pub struct Counts {
    pub read: u32,
    pub trimmed: u32,
    pub long: u32,
    pub covered: u32,
    pub bytes: u32,
}

const MOST_ENTRIES: usize = 4194304;

// Writes the right file of what is left of a file's entries. The bytes past it keep what they had, and a refusal writes nothing.
pub fn salvage(bytes: &[u8], out: &mut [u8]) -> Result<Counts, Refusal>
    ensures { Salvages bytes.now out.old result out.new }
{
    if bytes.len() < reading::HEADER {
        return Err(Refusal::BadFile);
    }
    let family = reading::number(bytes, 0);
    if !is_family(family) {
        return Err(Refusal::BadFile);
    }
    let n = (bytes.len() - reading::HEADER) / reading::entry_bytes(family as u8);
    if MOST_ENTRIES < n {
        return Err(Refusal::BadFile);
    }
    write(bytes, family as u8, n, out)
}
