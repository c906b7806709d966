// Inputs that are too long to be written here.
ghost use Rattle.std.specs.Prelude.{◌<◌};

use crate::filled::BYTES;
use crate::reading::WORDS;
use crate::{expect, filled, reading};
use test_counts::Tally;

// The 39th of the networks 100.10.10.10/32, 101.10.10.10/32 and so on is the first that has more than 1,000 nodes with those before it: they have 995.
pub fn over_limit(t: Tally) -> Tally {
    let buf = filled::lines(b"100.10.10.10/32\n", 1);
    let nets = filled::hosts();
    expect::reads(t, &buf, 39, 9, &nets, 995)
}

// The networks that hold 10.10.10.100 to 10.10.10.139, eight addresses each, over and over: so many buffers of them, in pieces of this size.
fn over_and_over(t: Tally, times: u32, size: usize, number: u64) -> Tally
    requires { 0 < size }
{
    let buf = filled::lines(b"10.10.10.100/29\n", 10);
    let mut pool = [0u32; WORDS];
    reading::lay(&mut pool);
    let r = reading::feed_times(&mut pool, lines::start(), &buf, size, times);
    let nets = [0, 0x0a0a_0a60, 27, 0, 0x0a0a_0a80, 28];
    expect::ends(t, &mut pool, r, number, 0, &nets, 32)
}

// 1 MB of lines, and 100,000 lines.
pub fn many(t: Tally) -> Tally {
    let t = over_and_over(t, 250, BYTES, 62_501);
    over_and_over(t, 400, 1021, 100_001)
}

// 1 MB of one byte between two parts of an input.
fn around(
    t: Tally,
    head: &[u8],
    byte: u8,
    tail: &[u8],
    number: u64,
    nets: &[u64],
    nodes: u32,
) -> Tally {
    let buf = [byte; BYTES];
    let mut pool = [0u32; WORDS];
    reading::lay(&mut pool);
    let mut r = lines::feed(&mut pool, lines::start(), head);
    r = reading::feed_times(&mut pool, r, &buf, BYTES, 250);
    r = lines::feed(&mut pool, r, tail);
    expect::ends(t, &mut pool, r, number, 4, nets, nodes)
}

pub fn long_lines(t: Tally) -> Tally {
    let mut t = around(t, b"255.255.255.255/32", b'0', b"", 1, &[], 0);
    t = around(
        t,
        b"10.0.0.0/8\n",
        b'1',
        b"\n11.0.0.0/8\n",
        2,
        &[0, 0x0a00_0000, 8],
        9,
    );
    around(t, b"10.0.0.0/8\n", b'\n', b"", 2, &[0, 0x0a00_0000, 8], 9)
}
