// Numbers and entries as bytes, the most significant byte first.
ghost use Rattle.std.specs.Prelude.{◌≡◌, ◌+◌, ◌≤◌, ◌<◌, length, get_or};
ghost use Rattle.nodes.specs.Words.{put};
ghost use Rattle.trie_paths.specs.Laying.{bump};
ghost use Rattle.setfile_format.specs.Files.{bytes_of, entry_bytes, entry_at};
ghost use Rattle.setfile_put.specs.Putting.{Entry, EntryPut};

use nets::{IPV4, Net};
use setfile_entries::reading::{HEADER, entry_bytes};

// Writes the four bytes of a number.
pub fn put_number(out: &mut [u8], at: usize, x: u32)
    requires { at + 4 ≤ length out.old }
    ensures { out.new ≡ put out.old at (bytes_of 4 x) }
{
    out[at..at + 4].copy_from_slice(&x.to_be_bytes());
}

// Writes the eight bytes of a number.
pub fn put_word(out: &mut [u8], at: usize, x: u64)
    requires { at + 8 ≤ length out.old }
    ensures { out.new ≡ put out.old at (bytes_of 8 x) }
{
    out[at..at + 8].copy_from_slice(&x.to_be_bytes());
}

// Writes the entry of a network from the byte k on.
pub fn put_at(out: &mut [u8], k: usize, x: Net)
    requires { Entry x × (k + entry_bytes x.family ≤ length out.old) }
    ensures { EntryPut out.old k x out.new }
{
    if x.family == IPV4 {
        put_number(out, k, x.lo as u32);
        out[k + 4] = x.len;
        return;
    }
    put_word(out, k, x.hi);
    put_word(out, k + 8, x.lo);
    out[k + 16] = x.len;
}

// Writes the entry of a network at the next place of its length.
pub fn put_next(next: &mut [usize; 129], out: &mut [u8], x: Net)
    requires { Entry x × (x.len < 129) × (entry_at x.family (get_or next.old x.len 0 + 1) ≤ length out.old) }
    ensures { (next.new ≡ bump x.len next.old) × EntryPut out.old (entry_at x.family (get_or next.old x.len 0)) x out.new }
{
    let d = x.len as usize;
    let at = next[d];
    put_at(out, HEADER + entry_bytes(x.family) * at, x);
    next[d] = at + 1;
}
