// Inputs read into memory that is no pool.
use crate::reading;
use crate::reading::WORDS;
use test_counts::{Tally, count};

// Whatever the input, the reading ends with 2 before its first byte.
fn ends_at_once(t: Tally, input: &[u8]) -> Tally {
    let mut pool = [0u32; WORDS];
    let r = lines::feed(&mut pool, lines::start(), input);
    let s = lines::finish(&mut pool, r);
    count(t, s.no == 2 && s.number == 1 && s.len == 0)
}

// A network, no network, a line that is not ended, and no line at all.
pub fn at_once(t: Tally) -> Tally {
    let mut t = ends_at_once(t, b"10.0.0.0/8\n");
    t = ends_at_once(t, b"10.0.0.0\n");
    t = ends_at_once(t, b"10.0.0.0/8");
    ends_at_once(t, b"")
}

// A pool that was damaged between two lines takes no second one, and a reading that has ended stays as it is.
pub fn between(t: Tally) -> Tally {
    let mut pool = [0u32; WORDS];
    reading::lay(&mut pool);
    let r = lines::feed(&mut pool, lines::start(), b"10.0.0.0/8\n11.");
    pool[0] = 0;
    let s = lines::feed(&mut pool, r, b"0.0.0/8\n");
    let end = lines::finish(&mut pool, s);
    count(t, end.no == 2 && end.number == 2 && end.len == 3)
}
