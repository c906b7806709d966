// The fixed parts of a call and of its answer.
ghost use Rattle.std.specs.Prelude.{cond, ◌≡◌, ◌+◌, ◌^◌, ◌≤◌, ◌<◌, length};
ghost use Rattle.nodes.specs.Words.{put};
ghost use Rattle.calls_bytes.specs.Records.{net_at, call_at, net_bytes, head_bytes, reply_bytes};

use crate::bytes::{byte_at, put_u8, put_u32, put_u64, u32_at, u64_at};
use crate::{Call, Reply};
use nets::Net;

// How many bytes a call has before its tail, and an answer before its own.
pub const CALL: usize = 35;

pub const REPLY: usize = 28;

// The network of an answer that has none.
pub const NO_NET: Net = Net {
    family: 0,
    hi: 0,
    lo: 0,
    len: 0,
};

// The network of eighteen bytes.
fn net_at(s: &[u8], p: usize) -> Net
    requires { p + 17 < 2 ^ 64 }
    ensures { result ≡ net_at s.now p }
{
    Net {
        family: byte_at(s, p),
        hi: u64_at(s, p + 1),
        lo: u64_at(s, p + 9),
        len: byte_at(s, p + 17),
    }
}

// The call that begins there.
pub fn call_at(s: &[u8], p: usize) -> Call
    requires { p + 34 < 2 ^ 64 }
    ensures { result ≡ call_at s.now p }
{
    Call {
        code: byte_at(s, p),
        a: u32_at(s, p + 1),
        b: u32_at(s, p + 5),
        c: u32_at(s, p + 9),
        net: net_at(s, p + 13),
        tail: u32_at(s, p + 31),
    }
}

// Writes a network in eighteen bytes.
fn put_net(out: &mut [u8], at: usize, net: Net)
    requires { at + 18 ≤ length out.old }
    ensures { out.new ≡ put out.old at (net_bytes net) }
{
    put_u8(out, at, net.family);
    put_u64(out, at + 1, net.hi);
    put_u64(out, at + 9, net.lo);
    put_u8(out, at + 17, net.len);
}

// 1 where it is set, else 0.
pub fn flag_byte(flag: bool) -> u8
    ensures { result ≡ cond flag 1 0 }
{
    u8::from(flag)
}

// Writes what stands before the network of an answer.
fn put_head(out: &mut [u8], at: usize, r: Reply)
    requires { at + 10 ≤ length out.old }
    ensures { out.new ≡ put out.old at (head_bytes r) }
{
    put_u8(out, at, r.no);
    put_u8(out, at + 1, flag_byte(r.flag));
    put_u32(out, at + 2, r.x);
    put_u32(out, at + 6, r.y);
}

// Writes an answer.
pub fn put_reply(out: &mut [u8], at: usize, r: Reply)
    requires { at + 28 ≤ length out.old }
    ensures { out.new ≡ put out.old at (reply_bytes r) }
{
    put_head(out, at, r);
    put_net(out, at + 10, r.net);
}
