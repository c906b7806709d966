// Where the walk of a query of eight bits or more stands by an index: their number, and what the word of that number shows.
ghost use Rattle.std.specs.Prelude.{◌≡◌, ◌+◌, ◌≤◌, ◌<◌, take, drop};
ghost use Rattle.nets.specs.Bits.{digit, val};
ghost use Rattle.nets.specs.Networks.{bits_left};
ghost use Rattle.nodes.specs.Parse.{Room};
ghost use Rattle.trie_lookup.specs.Walks.{node_shows, stands_on};

use crate::{Shown, walk_down};
use nets::{PrefixBits, Refusal};
use nodes::reading::word_at;

// The first eight bits of a query as a number, and the bits behind them.
#[derive(Clone, Copy)]
pub struct Opening {
    pub byte: usize,
    pub rest: PrefixBits,
}

// Twice a number, and one more where the bit is set.
fn push(byte: usize, bit: bool) -> usize
    requires { byte < 128 }
    ensures { result ≡ byte + byte + digit bit }
{
    if bit {
        return byte + byte + 1;
    }
    byte + byte
}

pub fn head(bits: PrefixBits) -> Opening
    requires { (8 ≤ bits.len) × (bits.len ≤ 128) }
    ensures { (result.byte ≡ val (take 8 (bits_left bits))) × (result.byte < 256) × (result.rest.len + 8 ≡ bits.len) × (bits_left result.rest ≡ drop 8 (bits_left bits)) }
{
    let mut byte: usize = 0;
    let mut left = bits;
    for _k in 0u32..8 {
        let next = left.next();
        match next {
            None => return Opening { byte, rest: left },
            Some((bit, later)) => {
                byte = push(byte, bit);
                left = later;
            }
        }
    }
    Opening { byte, rest: left }
}

// What node i shows, which the index says to be d bits down.
fn node_shows(w: &[u32], b: usize, n: u32, d: u8, i: u32, len: u8, bits: PrefixBits) -> Shown
    requires { Room w.now b n × (1 ≤ i) × (i ≤ n) × (bits.len + 8 ≡ len) × (len ≤ 128) × (d ≤ 8) }
    ensures { result ≡ node_shows w.now b n d i (bits_left bits) }
{
    if d == 8 {
        return walk_down(w, b, n, i, len, bits);
    }
    if word_at(w, b, n, i) == 0 {
        return Shown::Member(d, d + 1);
    }
    Shown::Refused(Refusal::Damaged)
}

// What the word x of an index shows.
pub fn stand_on(w: &[u32], b: usize, n: u32, root: u32, x: u32, len: u8, bits: PrefixBits) -> Shown
    requires { Room w.now b n × (bits.len + 8 ≡ len) × (len ≤ 128) }
    ensures { result ≡ stands_on w.now b n root x (bits_left bits) }
{
    let d = x % 32;
    if d <= 8 {
        let i = root as u64 + (x / 32) as u64;
        if i < 1 {
            return Shown::Refused(Refusal::Damaged);
        }
        if (n as u64) < i {
            return Shown::Refused(Refusal::Damaged);
        }
        return node_shows(w, b, n, d as u8, i as u32, len, bits);
    }
    if x < 16 {
        return Shown::Refused(Refusal::Damaged);
    }
    if 24 < x {
        return Shown::Refused(Refusal::Damaged);
    }
    Shown::Nothing((x - 16) as u8)
}
