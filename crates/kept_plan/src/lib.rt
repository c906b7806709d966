// What a change does to the trie from node i up to node e, below a string that leads the network q. Nothing is written.
ghost use Rattle.std.specs.Prelude.{List, ◌≡◌, ℕ, length};
ghost use Rattle.nets.specs.Bits.{Bits};
ghost use Rattle.nets.specs.Tries.{Trie, side};
ghost use Rattle.kept_steps.specs.Segments.{KeptSegment, KeptBranch};
ghost use Rattle.kept_plan.specs.Change.{Way, Planned, Steps};

use kept_reading::reading::net_at;
use kept_reading::strings::{bit_at, leads};
use kept_steps::{View, look};
use nets::Net;

// What is to be done; a bit says on which side.
#[derive(Clone, Copy)]
pub enum Plan {
    // All stays.
    Stay,
    // All becomes the network or nothing.
    Flat,
    // A member gives way to the blocks beside the network.
    Halve,
    // The network comes to stand beside what is there.
    Fork(bool),
    // A half goes, with the branch point over it, whose first half begins at node `first`.
    Drop {
        bit: bool,
        first: usize,
    },
    // A half is gone into: the nodes where the second begins, or would, and where the first.
    Down {
        bit: bool,
        second: usize,
        first: usize,
    },
}

// A half: its first node and its end.
#[derive(Clone, Copy)]
pub struct Half {
    pub from: usize,
    pub to: usize,
}

// The half on the side of the bit.
pub fn half_of(bit: bool, a: usize, m: usize, e: usize) -> Half
    ensures { (result.from ≡ side bit m a) × (result.to ≡ side bit e m) }
{
    if bit {
        return Half { from: a, to: m };
    }
    Half { from: m, to: e }
}

// The plan for two halves.
fn inward(
    w: &[u32],
    family: u8,
    b: usize,
    n: u32,
    i: usize,
    e: usize,
    a: usize,
    m: usize,
    bit: bool,
    q: Net,
    into: bool,
) -> Plan
    requires { (u : ℕ) × (p : Bits) × (r : Bits) × (t : Trie) × (rest : List ℕ) × KeptSegment family w.now b n i e u p t rest × KeptBranch i a m t
        × Steps family p r q bit }
    ensures { (u : ℕ) (p r : Bits) (t : Trie) (rest : List ℕ) → KeptSegment family w.now b n i e u p t rest → KeptBranch i a m t
        → Steps family p r q bit
        → Planned family i p r into t result }
{
    let h = half_of(bit, a, m, e);
    if h.from == h.to {
        if into {
            return Plan::Fork(bit);
        }
        return Plan::Stay;
    }
    if into {
        return Plan::Down {
            bit,
            second: a,
            first: m,
        };
    }
    if a == i {
        return Plan::Down {
            bit,
            second: a,
            first: m,
        };
    }
    if leads(q, net_at(w, family, b, n, h.from as u32)) {
        return Plan::Drop { bit, first: m };
    }
    Plan::Down {
        bit,
        second: a,
        first: m,
    }
}

// The plan for the trie from node i up to node e, below a string of d bits.
pub fn plan_for(
    w: &[u32],
    family: u8,
    b: usize,
    n: u32,
    i: usize,
    e: usize,
    d: u8,
    q: Net,
    into: bool,
) -> Plan
    requires { (u : ℕ) × (p : Bits) × (r : Bits) × (t : Trie) × (rest : List ℕ) × KeptSegment family w.now b n i e u p t rest × Way family p r q
        × (length p ≡ d) }
    ensures { (u : ℕ) (p r : Bits) (t : Trie) (rest : List ℕ) → KeptSegment family w.now b n i e u p t rest → Way family p r q → length p ≡ d
        → Planned family i p r into t result }
{
    if d == q.len {
        return Plan::Flat;
    }
    let v = look(w, family, b, n, i, e, d);
    match v {
        View::Nothing => Plan::Flat,
        View::Leaf => {
            if into {
                return Plan::Stay;
            }
            Plan::Halve
        }
        View::Inner(a, m) => inward(w, family, b, n, i, e, a, m, bit_at(q, d), q, into),
    }
}
