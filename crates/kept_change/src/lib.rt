// One network put into a trie of the second form in place, or taken out: down its bits to the part that changes, which is planned, counted and written; then
// back over the branch points on the way.
ghost use Rattle.std.specs.Prelude.{List, ◌≡◌, ℕ, ◌+◌, ◌-◌, ◌≤◌, length};
ghost use Rattle.nets.specs.Bits.{Bits};
ghost use Rattle.nets.specs.Networks.{net_from};
ghost use Rattle.nets.specs.Tries.{Trie, side};
ghost use Rattle.branch_points.specs.KeptTries.{kept_size};
ghost use Rattle.kept_steps.specs.Segments.{KeptSegment, KeptSpliced};
ghost use Rattle.kept_acts.specs.Acts.{flat_size};
ghost use Rattle.kept_plan.specs.Change.{change_t, Way, Changes};

use kept_acts::{drop_half, flat, fork, relink};
use kept_blocks::halve;
use kept_plan::{Plan, half_of, plan_for};
use kept_reading::strings::child;
use nets::Net;

// The nodes of a single member, or of nothing.
fn flat_size(full: bool) -> usize
    ensures { result ≡ flat_size full }
{
    usize::from(full)
}

// The nodes of the half that is not on the side of the bit, below the branch point i, whose first half begins at node m.
fn other_size(bit: bool, i: usize, m: usize, e: usize) -> usize
    requires { (i + 1 ≤ m) × (m ≤ e) }
    ensures { result ≡ side bit (m - (i + 1)) (e - m) }
{
    if bit {
        return e - m;
    }
    m - (i + 1)
}

// The nodes of the trie from node i up to node e, below a string of d bits, once the network q is in it, or out of it.
pub fn change_size(
    w: &[u32],
    family: u8,
    b: usize,
    n: u32,
    i: usize,
    e: usize,
    d: u8,
    q: Net,
    into: bool,
) -> usize
    requires { (u : ℕ) × (p : Bits) × (r : Bits) × (t : Trie) × (rest : List ℕ) × KeptSegment family w.now b n i e u p t rest × Way family p r q
        × (length p ≡ d) }
    ensures { (u : ℕ) (p r : Bits) (t : Trie) (rest : List ℕ) → KeptSegment family w.now b n i e u p t rest → Way family p r q → length p ≡ d
        → result ≡ kept_size (change_t into r t) }
{
    let x = plan_for(w, family, b, n, i, e, d, q, into);
    match x {
        Plan::Stay => e - i,
        Plan::Flat => flat_size(into),
        Plan::Halve => 2 * (q.len - d) as usize - 1,
        Plan::Fork(_) => e - i + 2,
        Plan::Drop { bit, first: m } => other_size(bit, i, m, e),
        Plan::Down {
            bit,
            second: a,
            first: m,
        } => {
            let h = half_of(bit, a, m, e);
            let k = change_size(w, family, b, n, h.from, h.to, d + 1, q, into);
            k + (e - i) - (h.to - h.from)
        }
    }
}

// Puts the network q into the trie from node i up to node e, below the string of the network path, or takes it out; the words up to node u are in use.
// Answers where the trie now ends.
pub fn change(
    w: &mut [u32],
    family: u8,
    b: usize,
    n: u32,
    i: usize,
    e: usize,
    u: usize,
    path: Net,
    q: Net,
    into: bool,
) -> usize
    requires { (p : Bits) × (r : Bits) × (t : Trie) × (rest : List ℕ) × (path ≡ net_from family p) × Changes family w.old b n i e u p r q into t rest }
    ensures { (p r : Bits) (t : Trie) (rest : List ℕ) → path ≡ net_from family p → Changes family w.old b n i e u p r q into t rest
        → KeptSpliced family w.old w.new b i result p (change_t into r t) rest }
{
    let x = plan_for(w, family, b, n, i, e, path.len, q, into);
    match x {
        Plan::Stay => e,
        Plan::Flat => flat(w, family, b, i, e, u, q, into),
        Plan::Halve => halve(w, family, b, i, e, u, path, q),
        Plan::Fork(bit) => fork(w, family, b, i, e, u, path, q, bit),
        Plan::Drop { bit, first: m } => drop_half(w, family, b, i, m, e, u, bit),
        Plan::Down {
            bit,
            second: a,
            first: m,
        } => {
            let h = half_of(bit, a, m, e);
            let z = change(w, family, b, n, h.from, h.to, u, child(path, bit), q, into);
            relink(w, family, b, i, a, m, e, z, bit, path)
        }
    }
}
