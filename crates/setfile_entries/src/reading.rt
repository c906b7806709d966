// What stands at each place of a set file, and its rules in the order of the file.
ghost use Rattle.std.specs.Prelude.{◌≡◌, ◌&&◌, ◌+◌, ◌*◌, ◌≤◌, ◌<◌, ◌^◌, length, drop};
ghost use Rattle.nets.specs.Lists.{ascending};
ghost use Rattle.nets.specs.Networks.{width, address, big_endian};
ghost use Rattle.setfile_format.specs.Files.{entry_bytes, file_bytes, most_entries, head_number, entry_net, are_clean, networks_in, is_file_header};

use crate::cleared;
use nets::families::is_family;
use nets::{IPV4, Net};

// The bytes of the header.
pub const HEADER: usize = 16;

const MOST_ENTRIES: u32 = 4194304;

// The bytes of an entry: an address, then a length.
pub fn entry_bytes(family: u8) -> usize
    ensures { result ≡ entry_bytes family }
{
    if family == IPV4 { 5 } else { 17 }
}

// The bytes of a file with n entries: where entry n begins.
pub fn file_bytes(family: u8, n: usize) -> usize
    requires { n ≤ most_entries }
    ensures { result ≡ file_bytes family n }
{
    HEADER + entry_bytes(family) * n
}

// The number of four bytes.
fn joined(a: u8, b: u8, c: u8, d: u8) -> u64
    ensures value { result ≡ ((a * 256 + b) * 256 + c) * 256 + d }
    ensures upper_bound { result < 2 ^ 32 }
{
    ((a as u64 * 256 + b as u64) * 256 + c as u64) * 256 + d as u64
}

// The number of the four bytes at a place, and of the eight, the most significant first.
fn four(bytes: &[u8], at: usize) -> u64
    requires { (at < 8589934592) × (at + 4 ≤ length bytes.now) }
    ensures value { result ≡ big_endian 256 (drop at bytes.now) 4 }
    ensures upper_bound { result < 2 ^ 32 }
{
    joined(bytes[at], bytes[at + 1], bytes[at + 2], bytes[at + 3])
}

fn eight(bytes: &[u8], at: usize) -> u64
    requires { (at < 4294967296) × (at + 8 ≤ length bytes.now) }
    ensures { result ≡ big_endian 256 (drop at bytes.now) 8 }
{
    let a = four(bytes, at);
    let b = four(bytes, at + 4);
    a * 0x1_0000_0000 + b
}

// Number k of the header.
pub fn number(bytes: &[u8], k: usize) -> u32
    requires { (k < 4) × (4 * k + 4 ≤ length bytes.now) }
    ensures { result ≡ head_number bytes.now k }
{
    four(bytes, 4 * k) as u32
}

// Entry i as a network.
pub fn entry(bytes: &[u8], family: u8, i: usize) -> Net
    requires { (i ≤ 4194304) × (file_bytes family (i + 1) ≤ length bytes.now) }
    ensures value { result ≡ entry_net family bytes.now i }
    ensures result_bound { address result < 2 ^ width family }
{
    if family == IPV4 {
        let at = file_bytes(family, i);
        return Net {
            family,
            hi: 0,
            lo: four(bytes, at),
            len: bytes[at + 4],
        };
    }
    let at = file_bytes(family, i);
    Net {
        family,
        hi: eight(bytes, at),
        lo: eight(bytes, at + 8),
        len: bytes[at + 16],
    }
}

// The rules of the header.
pub fn is_header(bytes: &[u8]) -> bool
    ensures { result ≡ is_file_header bytes.now }
{
    if bytes.len() < HEADER {
        return false;
    }
    let family = number(bytes, 0);
    if !is_family(family) {
        return false;
    }
    let n = number(bytes, 1);
    if MOST_ENTRIES < n {
        return false;
    }
    if number(bytes, 2) as usize != HEADER {
        return false;
    }
    if number(bytes, 3) as usize != bytes.len() {
        return false;
    }
    bytes.len() == file_bytes(family as u8, n as usize)
}

// The first n entries have no bits past their lengths, and each comes before the next.
pub fn in_order(bytes: &[u8], family: u8, n: usize) -> bool
    requires { (n ≤ 4194304) × (file_bytes family n ≤ length bytes.now) }
    ensures { result ≡ (are_clean family bytes.now 0 n && ascending (networks_in family bytes.now 0 n)) }
{
    if n == 0 {
        return true;
    }
    let mut last = entry(bytes, family, 0);
    if !cleared::is_clean(last) {
        return false;
    }
    for i in 1..n {
        let x = entry(bytes, family, i);
        if !cleared::is_clean(x) {
            return false;
        }
        if !cleared::is_before(last, x) {
            return false;
        }
        last = x;
    }
    true
}
