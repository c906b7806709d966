// Groups joined by colons.
ghost use Rattle.std.specs.Prelude.{◌≡◌, ◌+◌, ◌*◌, ◌≤◌, length};
ghost use Rattle.std.proofs.Math.Seq.{slice};
ghost use Rattle.text_decimal.specs.Places.{Stored};
ghost use Rattle.text_ipv6_write.specs.Ipv6.{joined, digits};

use text_hex::group;

// How many bytes the groups from one place up to another have.
pub fn length(g: [u16; 8], from: usize, to: usize) -> usize
    requires { to ≤ 8 }
    ensures value { result ≡ length (joined (digits (slice from to g))) }
    ensures upper_bound { result ≤ 40 }
{
    if to <= from {
        return 0;
    }
    let mut n = group::length(g[from]);
    for i in from + 1..to {
        n += 1 + group::length(g[i]);
    }
    n
}

// Writes them at the place, and gives the place behind them.
pub fn put(out: &mut [u8], at: usize, g: [u16; 8], from: usize, to: usize) -> usize
    requires { (to ≤ 8) × (at + length (joined (digits (slice from to g))) ≤ length out.old) }
    ensures { Stored out.old at (joined (digits (slice from to g))) out.new result }
{
    if to <= from {
        return at;
    }
    let mut next = group::put(out, at, g[from]);
    for i in from + 1..to {
        out[next] = b':';
        next = group::put(out, next + 1, g[i]);
    }
    next
}
