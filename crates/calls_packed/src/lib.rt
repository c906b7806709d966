// An answer in one number, for the calls that are exported each for itself, and the numbers of its network in a row of three.
#![tactic(auto)]

ghost use Rattle.std.specs.Prelude.{◌≡◌, ◌≤◌};
ghost use Rattle.calls_packed.specs.Packed.{bit, packed, row_after, first_of, second_of, line_reply};

use calls_bytes::Reply;
use calls_bytes::records::NO_NET;

// What the flag, the report, and the number of a refusal count for in it.
const YES: u64 = 281474976710656;

const CUT: u64 = 562949953421312;

const REFUSED: u64 = 4294967296;

fn one_if(flag: bool) -> u64
    ensures value { result ≡ bit flag }
    ensures upper_bound { result ≤ 1 }
{
    u64::from(flag)
}

// The value in the low 32 bits, the refusal's number above it, then the flag and the report, a bit each.
pub fn packed(r: Reply) -> u64
    ensures { result ≡ packed r }
{
    let low = r.x as u64 + REFUSED * (r.no as u64);
    low + YES * one_if(r.flag) + CUT * one_if(r.y != 0)
}

// The network of an answer that has one: high word, low word, length.
pub fn put_row(row: &mut [u64; 3], r: Reply)
    ensures { row.new ≡ row_after row.old r }
{
    if r.flag {
        *row = [r.net.hi, r.net.lo, r.net.len as u64];
    }
}

// Of two values the first.
pub fn first_of(r: Reply) -> Reply
    ensures { result ≡ first_of r }
{
    Reply {
        flag: false,
        y: 0,
        net: NO_NET,
        ..r
    }
}

// Of two values the second.
pub fn second_of(r: Reply) -> Reply
    ensures { result ≡ second_of r }
{
    Reply {
        x: r.y,
        ..first_of(r)
    }
}

// The network that a line was read to, with its family as the value.
pub fn of_line(r: Reply) -> Reply
    ensures { result ≡ line_reply r }
{
    Reply {
        flag: r.no == 0,
        x: r.net.family as u32,
        ..r
    }
}
