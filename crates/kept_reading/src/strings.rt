// Strings of nodes, as networks: whether one leads another, the bit behind it, and one bit more.
ghost use Rattle.std.specs.Prelude.{◌≡◌, false, ℕ, ◌<◌, length, get_or};
ghost use Rattle.nets.specs.Bits.{Bits, leads};
ghost use Rattle.nets.specs.Networks.{width, net_from, net_bits};
ghost use Rattle.trie_paths.specs.Spans.{snoc};
ghost use Rattle.kept_reading.specs.NodeStrings.{IsString, Both};

use address_order::sharing::shared;
use nets::Net;
use nets::families::width;
use trie_paths::halves;

// Bit k of the string, the first is bit 0.
pub fn bit_at(q: Net, k: u8) -> bool
    requires { IsString q × (k < q.len) }
    ensures { result ≡ get_or (net_bits q) k false }
{
    let j = width(q.family) - 1 - k;
    if j < 64 {
        return (q.lo >> j) % 2 == 1;
    }
    (q.hi >> (j - 64)) % 2 == 1
}

// The string p leads q.
pub fn leads(p: Net, q: Net) -> bool
    requires { Both p q }
    ensures { result ≡ leads (net_bits p) (net_bits q) }
{
    shared(p, q) == p.len
}

// The string p with one bit more leads q.
pub fn extends(p: Net, bit: bool, q: Net) -> bool
    requires { Both p q }
    ensures { result ≡ leads (snoc (net_bits p) bit) (net_bits q) }
{
    if q.len <= p.len {
        return false;
    }
    if !leads(p, q) {
        return false;
    }
    bit_at(q, p.len) == bit
}

// The string p with one bit more.
pub fn child(p: Net, bit: bool) -> Net
    requires { (f : ℕ) × (q : Bits) × (p ≡ net_from f q) × (length q < width f) }
    ensures { (f : ℕ) (q : Bits) → p ≡ net_from f q → result ≡ net_from f (snoc q bit) }
{
    if bit {
        return halves::second(p);
    }
    halves::first(p)
}
