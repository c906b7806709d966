// The entries of a file that are trimmed, and those whose length is out of range.
ghost use Rattle.std.specs.Prelude.{not, ◌&&◌, ◌≡◌, ◌≤◌, length};
ghost use Rattle.nets.specs.Bits.{digit};
ghost use Rattle.nets.specs.Networks.{has_bit_past};
ghost use Rattle.setfile_format.specs.Files.{file_bytes, most_entries};
ghost use Rattle.salvage_lists.specs.Salvaging.{is_long, long_in, trimmed_in};

use nets::families::width;
use nets::{Net, has_bit_past};
use setfile_entries::reading;

// How many entries have a bit set past their length, and how many a length out of range.
#[derive(Clone, Copy)]
pub struct Strays {
    pub trimmed: u32,
    pub long: u32,
}

// Of one entry.
fn stray(x: Net) -> Strays
    ensures { (result.trimmed ≡ digit (not (is_long x) && has_bit_past x)) × (result.long ≡ digit (is_long x)) }
{
    if width(x.family) < x.len {
        return Strays {
            trimmed: 0,
            long: 1,
        };
    }
    if has_bit_past(x) {
        return Strays {
            trimmed: 1,
            long: 0,
        };
    }
    Strays {
        trimmed: 0,
        long: 0,
    }
}

// Of the first n entries.
pub fn tally(bytes: &[u8], family: u8, n: usize) -> Strays
    requires { (n ≤ most_entries) × (file_bytes family n ≤ length bytes.now) }
    ensures { (result.trimmed ≡ trimmed_in family bytes.now 0 n) × (result.long ≡ long_in family bytes.now 0 n) }
{
    let mut trimmed = 0;
    let mut long = 0;
    for i in 0..n {
        let s = stray(reading::entry(bytes, family, i));
        trimmed += s.trimmed;
        long += s.long;
    }
    Strays { trimmed, long }
}
