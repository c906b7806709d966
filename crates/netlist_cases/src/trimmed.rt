// How many lines were trimmed: those whose address has a set bit past the length. A refused line is not counted, and those before it are.
use crate::reading;
use crate::reading::WORDS;
use test_counts::{Tally, count};

// The input comes to so many trimmed lines, and to this refusal.
fn counts(t: Tally, input: &[u8], trimmed: u64, no: u8) -> Tally {
    let mut pool = [0u32; WORDS];
    reading::lay(&mut pool);
    let r = lines::feed(&mut pool, lines::start(), input);
    let s = lines::finish(&mut pool, r);
    count(t, s.trimmed == trimmed && s.no == no)
}

// The scope document's input, none, and the lengths at which all bits, one bit or no bit stand past the length.
pub fn few(t: Tally) -> Tally {
    let mut t = counts(t, b"192.168.0.0/24\n192.168.1.0/24\n10.9.8.7/8\n", 1, 0);
    t = counts(t, b"", 0, 0);
    t = counts(t, b"0.0.0.0/0\n128.0.0.0/0\n0.0.0.1/0\n", 2, 0);
    t = counts(t, b"1.2.3.4/31\n1.2.3.5/31\n1.2.3.5/32\n", 1, 0);
    counts(t, b"10.0.0.1/8\n10.0.0.1/8", 2, 0)
}

// A line that is refused for its text, and one that is inside a member already.
pub fn refused(t: Tally) -> Tally {
    let t = counts(t, b"10.0.0.1/8\n10.0.0.1\n10.0.0.1/8\n", 1, 4);
    counts(t, b"10.0.0.0/8\n10.0.0.9/24\n", 1, 0)
}
