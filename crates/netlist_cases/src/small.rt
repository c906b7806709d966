// Inputs of a few lines.
use crate::expect;
use test_counts::Tally;

// No line, one with and without its line feed, the document's input, addresses with bits past the length.
pub fn accepted(t: Tally) -> Tally {
    let mut t = expect::reads(t, b"", 1, 0, &[], 0);
    t = expect::reads(t, b"10.9.8.7/8\n", 2, 0, &[0, 0x0a00_0000, 8], 9);
    t = expect::reads(t, b"10.9.8.7/8", 2, 0, &[0, 0x0a00_0000, 8], 9);
    t = expect::reads(t, b"100.200.0.9/10\n0.0.0.0/0\n", 3, 0, &[0, 0, 0], 1);
    document(t)
}

fn document(t: Tally) -> Tally {
    let nets = [0, 0x0a00_0000, 8, 0, 0xc0a8_0000, 23];
    let t = expect::reads(
        t,
        b"192.168.0.0/24\n192.168.1.0/24\n10.9.8.7/8\n",
        4,
        0,
        &nets,
        32,
    );
    expect::reads(
        t,
        b"192.168.0.0/24\n192.168.1.0/24\n10.9.8.7/8",
        4,
        0,
        &nets,
        32,
    )
}

// Lines whose networks contain each other, or are halves of one block.
pub fn joined(t: Tally) -> Tally {
    let mut t = expect::reads(
        t,
        b"10.0.0.0/8\n10.1.0.0/16\n0.0.0.0/0\n",
        4,
        0,
        &[0, 0, 0],
        1,
    );
    t = expect::reads(t, b"10.0.0.0/8\n11.0.0.0/8", 3, 0, &[0, 0x0a00_0000, 7], 8);
    let nets = [0, 0x8000_0000, 1, 0, 0x0a00_0000, 8];
    expect::reads(
        t,
        b"10.0.0.0/8\n10.1.0.0/16\n128.0.0.0/1\n",
        4,
        0,
        &nets,
        10,
    )
}

// A line that is no network: the first, one in the middle, the last with and without its line feed.
pub fn refused(t: Tally) -> Tally {
    let mut t = expect::reads(t, b"ten\n10.0.0.0/8\n", 1, 4, &[], 0);
    t = expect::reads(
        t,
        b"10.0.0.0/8\n10.0.0.0\n11.0.0.0/8\n",
        2,
        4,
        &[0, 0x0a00_0000, 8],
        9,
    );
    t = expect::reads(
        t,
        b"10.0.0.0/8\n11.0.0.0/33\n",
        2,
        4,
        &[0, 0x0a00_0000, 8],
        9,
    );
    expect::reads(t, b"10.0.0.0/8\n11.0.0.0/", 2, 4, &[0, 0x0a00_0000, 8], 9)
}

// Numbers of two or more digits that begin with 0.
pub fn zeros(t: Tally) -> Tally {
    let mut t = expect::reads(t, b"010.0.0.0/8\n", 1, 4, &[], 0);
    t = expect::reads(t, b"10.0.0.00/8\n", 1, 4, &[], 0);
    t = expect::reads(t, b"10.0.0.0/08\n", 1, 4, &[], 0);
    t = expect::reads(t, b"10.0.0.0/00\n", 1, 4, &[], 0);
    t = expect::reads(t, b"000.0.0.0/0\n", 1, 4, &[], 0);
    expect::reads(t, b"0.0.0.0/1\n1.2.3.04/32\n", 2, 4, &[0, 0, 1], 2)
}

// Empty lines, also behind the last line feed but one, and carriage returns.
pub fn unfit(t: Tally) -> Tally {
    let mut t = expect::reads(t, b"\n", 1, 4, &[], 0);
    t = expect::reads(
        t,
        b"10.0.0.0/8\n\n11.0.0.0/8\n",
        2,
        4,
        &[0, 0x0a00_0000, 8],
        9,
    );
    t = expect::reads(t, b"10.0.0.0/8\n\n", 2, 4, &[0, 0x0a00_0000, 8], 9);
    t = expect::reads(t, b"10.0.0.0/8\r\n", 1, 4, &[], 0);
    expect::reads(t, b"10.0.0.0/8\n\r", 2, 4, &[0, 0x0a00_0000, 8], 9)
}

// A line of 18 bytes, and lines of more that begin with one.
pub fn longest(t: Tally) -> Tally {
    let last = [0, 0xffff_ffff, 32];
    let mut t = expect::reads(t, b"255.255.255.255/32\n", 2, 0, &last, 33);
    t = expect::reads(t, b"255.255.255.255/320\n", 1, 4, &[], 0);
    t = expect::reads(t, b"255.255.255.255/32 \n", 1, 4, &[], 0);
    t = expect::reads(
        t,
        b"255.255.255.255/32\n255.255.255.255/3200",
        2,
        4,
        &last,
        33,
    );
    expect::reads(
        t,
        b"255.255.255.255/32\n255.255.255.254/32",
        3,
        0,
        &[0, 0xffff_fffe, 31],
        32,
    )
}
