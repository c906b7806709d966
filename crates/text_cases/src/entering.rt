// Networks taken in: the address that is left, and the report.
use nets::Net;
use test_counts::{Tally, count};

// The network of a family and a length with the address in two words, taken in: these words are left, with this report.
fn enters(t: Tally, family: u8, len: u8, given: [u64; 2], left: [u64; 2], trimmed: bool) -> Tally {
    let net = Net {
        family,
        hi: given[0],
        lo: given[1],
        len,
    };
    let [hi, lo] = left;
    count(t, net.to_network() == Ok((Net { hi, lo, ..net }, trimmed)))
}

// A network without a set bit past its length.
fn stays(t: Tally, family: u8, len: u8, hi: u64, lo: u64) -> Tally {
    enters(t, family, len, [hi, lo], [hi, lo], false)
}

// The bit on either side of a length: the last inside stays, the first past it goes.
fn sides(t: Tally, family: u8, len: u8, inside: [u64; 2], past: [u64; 2]) -> Tally {
    let t = stays(t, family, len, inside[0], inside[1]);
    let t = enters(t, family, len, past, [0, 0], true);
    let both = [inside[0] | past[0], inside[1] | past[1]];
    enters(t, family, len, both, inside, true)
}

// Of both families: a whole length has no bit past it, at length 0 every bit is; and the lengths on either side of the two words.
pub fn networks(t: Tally) -> Tally {
    let t = stays(t, 6, 128, 0xffff_ffff_ffff_ffff, 0xffff_ffff_ffff_ffff);
    let t = stays(t, 4, 32, 0, 0xffff_ffff);
    let t = stays(t, 6, 0, 0, 0);
    let t = enters(t, 6, 0, [0x8000_0000_0000_0000, 0], [0, 0], true);
    let t = enters(t, 6, 0, [0, 1], [0, 0], true);
    let t = enters(t, 4, 0, [0, 0x8000_0000], [0, 0], true);
    let t = sides(t, 6, 63, [2, 0], [1, 0]);
    let t = sides(t, 6, 63, [2, 0], [0, 0x8000_0000_0000_0000]);
    let t = sides(t, 6, 64, [1, 0], [0, 0x8000_0000_0000_0000]);
    let t = sides(t, 6, 64, [1, 0], [0, 1]);
    let t = sides(
        t,
        6,
        65,
        [0, 0x8000_0000_0000_0000],
        [0, 0x4000_0000_0000_0000],
    );
    let t = sides(t, 6, 65, [1, 0], [0, 1]);
    let t = sides(t, 6, 127, [0, 2], [0, 1]);
    sides(t, 4, 31, [0, 2], [0, 1])
}
