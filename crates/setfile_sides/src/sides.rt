// One of two files that are gone through side by side, in address order.
ghost use Rattle.std.specs.Prelude.{◌≡◌, ℕ, Bool, true, not, ◌&&◌, List};
ghost use Rattle.nets.specs.Bits.{Bits};
ghost use Rattle.nets.specs.Lists.{within};
ghost use Rattle.nets.specs.Networks.{width, value, net_from};
ghost use Rattle.nets.specs.Tries.{trie_of};
ghost use Rattle.setfile_format.specs.Files.{read_file, file};
ghost use Rattle.address_order.specs.Streams.{flat};
ghost use Rattle.setfile_order.specs.Flow.{head_as};
ghost use Rattle.setfile_sides.specs.Sides.{pairs, tight, begins, Stands, Along, passed, from_behind, Reaches};

use crate::words::{Address, behind, last, less};
use nets::Net;
use setfile_lanes::lanes::CURSORS;
use setfile_order::Head;
use setfile_order::flowing::{advance, open};

// A file that has come to a network, of which the addresses up to `from` are compared, and whose last one is `last`; and whether no two networks so far were
// the halves of one block.
#[derive(Clone, Copy)]
pub struct Side {
    pub head: Head,
    pub from: Address,
    pub last: Address,
    pub short: bool,
}

// A file that has come to the head.
fn arrived(head: Head, short: bool) -> Side
    ensures { (f : ℕ) (q : Bits) (ms : List Bits) → head ≡ head_as f q ms → within (width f) ms ≡ true
        → Stands f result (begins (width f) ms) ms × (result.short ≡ short) }
{
    let net = head.net;
    Side {
        head,
        from: Address {
            hi: net.hi,
            lo: net.lo,
        },
        last: last(net),
        short,
    }
}

// Whether it is still so that no two networks were the halves of one block, with the head behind the network `before`: two halves share all bits but the last.
fn still_short(short: bool, before: Net, head: Head) -> bool
    ensures { (f : ℕ) (p : Bits) (ms : List Bits) → before ≡ net_from f p → head ≡ head_as f p ms → result ≡ (short && not (pairs p ms)) }
{
    let deep = head.deep;
    let net = head.net;
    if deep == 0 {
        return short;
    }
    if deep != net.len as usize {
        return short;
    }
    if net.len != before.len {
        return short;
    }
    false
}

// A file before its first network.
pub fn begin(bytes: &[u8], family: u8, cursors: &mut [u64; CURSORS]) -> Side
    requires { (l : List Bits) × (read_file bytes.now ≡ file family l) }
    ensures { (l : List Bits) → read_file bytes.now ≡ file family l
        → Along bytes.now family cursors.new result (tight (flat (trie_of l))) (begins (width family) (flat (trie_of l))) (flat (trie_of l)) }
{
    let head = open(bytes, family, cursors);
    arrived(head, true)
}

// The file behind the address e, up to which its network is compared.
pub fn pass(bytes: &[u8], family: u8, cursors: &mut [u64; CURSORS], s: Side, e: Address) -> Side
    requires { (t : Bool) × (x : ℕ) × (ms : List Bits) × Along bytes.now family cursors.old s t x ms
        × Reaches (width family) (value e.hi e.lo) ms }
    ensures { (t : Bool) (x : ℕ) (ms : List Bits) → Along bytes.now family cursors.old s t x ms
        → Reaches (width family) (value e.hi e.lo) ms
        → Along bytes.now family cursors.new result t (from_behind (width family) (value e.hi e.lo) ms)
        (passed (width family) (value e.hi e.lo) ms) }
{
    if less(e, s.last) {
        return Side {
            from: behind(e),
            ..s
        };
    }
    let next = advance(bytes, family, cursors, s.head);
    let short = still_short(s.short, s.head.net, next);
    arrived(next, short)
}
