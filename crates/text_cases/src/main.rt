// Runs lines made by hand from the scope document, and from RFC 3986's rule for a number, through reading and writing, and networks of both families through
// taking them in; counts those that come out otherwise.
#![tactic(auto)]

mod entering;
mod expect;
mod rows;

ghost use Rattle.std.specs.Prelude.{◌≤◌};

use nets::{Net, Refusal};
use std::io;
use test_counts::{Tally, count};

// The numbers, written to so many bytes, get this refusal.
fn denies(t: Tally, family: u8, hi: u64, lo: u64, len: u8, room: usize, no: Refusal) -> Tally
    requires { room ≤ 24 }
{
    let net = Net {
        family,
        hi,
        lo,
        len,
    };
    count(t, expect::writes(net, room, b"", Err(no)))
}

// Numbers that are no IPv4 network: the family comes first, then the range, then the room.
fn denied(t: Tally) -> Tally {
    let mut t = denies(t, 6, 0, 1, 128, 24, Refusal::WrongFamily);
    t = denies(t, 0, 0, 0, 0, 24, Refusal::WrongFamily);
    t = denies(t, 5, 1, 0, 255, 0, Refusal::WrongFamily);
    t = denies(t, 4, 0, 0, 33, 24, Refusal::BadNetwork);
    t = denies(t, 4, 0, 0, 255, 24, Refusal::BadNetwork);
    t = denies(t, 4, 0, 0x1_0000_0000, 8, 24, Refusal::BadNetwork);
    t = denies(t, 4, 1, 0, 8, 24, Refusal::BadNetwork);
    denies(t, 4, 1, 0, 8, 0, Refusal::BadNetwork)
}

// Lines with a set bit past the length, the first and the last one too, and at a /0 any.
fn trimmed(t: Tally) -> Tally {
    let mut t = rows::trimmed(
        t,
        b"10.9.8.7/8",
        0x0a090807_08,
        b"10.0.0.0/8",
        0x0a000000_08,
    );
    t = rows::trimmed(
        t,
        b"10.128.0.0/8",
        0x0a800000_08,
        b"10.0.0.0/8",
        0x0a000000_08,
    );
    t = rows::trimmed(t, b"0.0.0.1/0", 0x00000001_00, b"0.0.0.0/0", 0x00000000_00);
    t = rows::trimmed(
        t,
        b"128.0.0.0/0",
        0x80000000_00,
        b"0.0.0.0/0",
        0x00000000_00,
    );
    t = rows::trimmed(
        t,
        b"192.0.0.0/1",
        0xc0000000_01,
        b"128.0.0.0/1",
        0x80000000_01,
    );
    rows::trimmed(
        t,
        b"0.0.0.1/31",
        0x00000001_1f,
        b"0.0.0.0/31",
        0x00000000_1f,
    )
}

// The same amid the four numbers.
fn trimmed_amid(t: Tally) -> Tally {
    let mut t = rows::trimmed(
        t,
        b"100.200.0.9/10",
        0x64c80009_0a,
        b"100.192.0.0/10",
        0x64c00000_0a,
    );
    t = rows::trimmed(
        t,
        b"9.10.99.100/9",
        0x090a6364_09,
        b"9.0.0.0/9",
        0x09000000_09,
    );
    t = rows::trimmed(
        t,
        b"199.200.101.0/10",
        0xc7c86500_0a,
        b"199.192.0.0/10",
        0xc7c00000_0a,
    );
    t = rows::trimmed(
        t,
        b"249.250.254.255/30",
        0xf9fafeff_1e,
        b"249.250.254.252/30",
        0xf9fafefc_1e,
    );
    rows::trimmed(
        t,
        b"10.20.30.200/19",
        0x0a141ec8_13,
        b"10.20.0.0/19",
        0x0a140000_13,
    )
}

// Lines with an entry and no bit past the length: the ends of the ranges, the document's input, numbers at the ends of the RFC's alternatives. Lines that are refused: the shape, misplaced
// bytes, numbers that are too large, bytes that are no digits, and from the customer's line on numbers with a leading zero.
fn main(rt: HostRuntime) -> io::Result<()> {
    let t = rows::lines(
        test_counts::none(),
        b"0.0.0.0/0|255.255.255.255/32|192.168.0.0/24|192.168.1.0/24|10.0.0.0/8|11.0.0.0/8|\
            99.100.199.200/31|209.19.90.0/29|128.0.0.0/1|0.0.0.2/31|0.0.0.1/32|\
            |/8|1.2.3/8|1.2.3.4|1.2.3.4/|1.2.3.4.5/8|1.2.3.4/8/8|1.2.3.4/8.|1.2.3.4/8\n|\
            .1.2.3.4/8| 1.2.3.4/8|1.2.3.4/8 |1. 2.3.4/8|1..3.4/8|1.2.3.4./8|1,2.3.4/8|1.2.3/4.8|1.2.3.4:8|\
            256.0.0.0/8|1.256.3.4/8|1.2.256.4/8|1.2.3.256/8|999.0.0.0/8|4294967297.2.3.4/8|1.2.3.4/33|1.2.3.4/99|1.2.3.4/264|\
            +1.2.3.4/8|1.2.3.4/-1|0x1.2.3.4/8|1.2.3.:/8|1.2.3.4/a|\
            010.0.0.0/8|10.0.0.00/8|10.0.0.0/08|10.0.0.0/00|000.0.0.0/0|1.2.3.04/32|01.2.3.4/8|1.02.3.4/8|1.2.03.4/8|1.2.3.004/8|\
            1.2.3.4/00|1.2.3.4/01|1.2.3.4/08|1.2.3.4/008|1.2.3.4/032|0.00.0.0/0|0.0.000.0/0|000.000.000.000/00|001.02.003.4/9|\
            0001.2.3.4/8|1.2.3.0004/8|",
        &[
            0x00000000_00,
            0xffffffff_20,
            0xc0a80000_18,
            0xc0a80100_18,
            0x0a000000_08,
            0x0b000000_08,
            0x6364c7c8_1f,
            0xd1135a00_1d,
            0x80000000_01,
            0x00000002_1f,
            0x00000001_20,
        ],
    );
    test_counts::say(&rt, entering::networks(trimmed_amid(trimmed(denied(t)))))
}
