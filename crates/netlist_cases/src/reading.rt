// The pool that netlist reads into, and inputs read in pieces.
ghost use Rattle.std.specs.Prelude.{◌<◌};

use lines::Reader;

// The words of a pool of one set and 1,000 nodes.
pub const WORDS: usize = 8072;

pub fn lay(pool: &mut [u32]) {
    let _ = pool::layout(pool, 4, 0, 1, 1000, &[1000], &[1000], 0);
}

// Feeds the bytes in pieces of this size.
pub fn feed(pool: &mut [u32], r: Reader, input: &[u8], size: usize) -> Reader
    requires { 0 < size }
{
    let mut r = r;
    for piece in input.chunks(size) {
        r = lines::feed(pool, r, piece);
    }
    r
}

// Feeds the bytes so many times.
pub fn feed_times(pool: &mut [u32], r: Reader, input: &[u8], size: usize, times: u32) -> Reader
    requires { 0 < size }
{
    let mut r = r;
    for _ in 0..times {
        r = feed(pool, r, input, size);
    }
    r
}
