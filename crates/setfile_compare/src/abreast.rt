// Two files side by side. What both hold is taken away from both, from the smallest address on; where only one holds the next address they differ.
ghost use Rattle.std.specs.Prelude.{◌≡◌, List, ℕ, Ok};
ghost use Rattle.nets.specs.Bits.{Bits};
ghost use Rattle.nets.specs.Networks.{width};
ghost use Rattle.setfile_format.specs.Files.{read_file, file};
ghost use Rattle.setfile_compare.specs.Comparing.{compared_as, verdict};
ghost use Rattle.setfile_sides.specs.Sides.{Stands};
ghost use Rattle.setfile_compare.specs.Abreast.{Meets};

use crate::{Compared, Holder};
use nets::Net;
use nets::families::width;
use setfile_lanes::lanes::CURSORS;
use setfile_sides::sides::{Side, begin, pass};
use setfile_sides::words::{Address, less};

// Both are at their end; only this file holds this address, the next that any of them holds; or both hold the addresses up to this one.
#[derive(Clone, Copy)]
pub enum Meet {
    Over,
    Differ(Holder, Address),
    Alike(Address),
}

// How two files go on.
fn meeting(a: Side, b: Side) -> Meet
    ensures { (f : ℕ) (x : ℕ) (ms : List Bits) (y : ℕ) (ns : List Bits) → Stands f a x ms → Stands f b y ns → Meets (width f) result x ms y ns }
{
    if a.head.deep == 0 {
        if b.head.deep == 0 {
            return Meet::Over;
        }
        let from = b.from;
        return Meet::Differ(Holder::Second, from);
    }
    let x = a.from;
    let y = b.from;
    if b.head.deep == 0 {
        return Meet::Differ(Holder::First, x);
    }
    if less(x, y) {
        return Meet::Differ(Holder::First, x);
    }
    if less(y, x) {
        return Meet::Differ(Holder::Second, y);
    }
    let c = a.last;
    let d = b.last;
    if less(c, d) {
        return Meet::Alike(c);
    }
    Meet::Alike(d)
}

// The answer, for the lists of two files of the family.
pub fn side_by_side(first: &[u8], second: &[u8], family: u8) -> Compared
    requires { (l : List Bits) × (m : List Bits) × (read_file first.now ≡ file family l) × (read_file second.now ≡ file family m) }
    ensures { (l m : List Bits) → read_file first.now ≡ file family l → read_file second.now ≡ file family m
        → compared_as (Ok result) ≡ (0, verdict family l m) }
{
    let mut c = [0u64; CURSORS];
    let mut d = [0u64; CURSORS];
    let mut a = begin(first, family, &mut c);
    let mut b = begin(second, family, &mut d);
    loop {
        let m = meeting(a, b);
        match m {
            Meet::Over => {
                if b.short {
                    return Compared::Shortest;
                }
                return Compared::Longer;
            }
            Meet::Differ(holder, x) => {
                let net = Net {
                    family,
                    hi: x.hi,
                    lo: x.lo,
                    len: width(family),
                };
                return Compared::Differs(holder, net);
            }
            Meet::Alike(e) => {
                a = pass(first, family, &mut c, a, e);
                b = pass(second, family, &mut d, b, e);
            }
        }
    }
}
