// Walks side by side, up to 32. Each round moves every walk that still goes on by up to two nodes: the reads of a round do not wait for each other. A walk that
// stays is left out of the next round.
ghost use Rattle.std.specs.Prelude.{cond, ◌≡◌, ◌+◌, ◌-◌, ◌≤◌, ◌<◌};
ghost use Rattle.nets.specs.Networks.{bits_words};
ghost use Rattle.nodes.specs.Parse.{Room};
ghost use Rattle.trie_lanes.specs.Lanes.{On, Goes, lane_at, keep_at, Wide, AllOn, AllGo, Moved, Live};

use nets::PrefixBits;
use trie_index::turn;

// The most walks side by side.
pub const LANES: usize = 32;

// The numbers of their row, three for each walk.
pub const NUMBERS: usize = 96;

// Rounds enough for 64 bits.
const ROUNDS: usize = 33;

// A walk by the first word of a query. It stands at place p of the pool's words; so many bits of the word are still to come, the first of them the highest.
#[derive(Clone, Copy)]
pub struct Lane {
    pub p: usize,
    pub word: u64,
    pub left: u8,
}

// So many bits of a word, the first of them the highest.
pub fn of_word(word: u64, left: u8) -> PrefixBits
    ensures { result ≡ bits_words word 0 left }
{
    PrefixBits {
        hi: word,
        lo: 0,
        len: left,
    }
}

// Walk a of a row.
pub fn lane_at(lanes: &[u64; NUMBERS], a: usize) -> Lane
    requires { (a < 32) × Wide lanes.now × ((lane_at lanes.now a).left ≤ 64) }
    ensures { result ≡ lane_at lanes.now a }
{
    let k = 3 * a;
    Lane {
        p: lanes[k] as usize,
        word: lanes[k + 1],
        left: lanes[k + 2] as u8,
    }
}

// Writes walk a of a row.
pub fn keep(lanes: &mut [u64; NUMBERS], a: usize, l: Lane)
    requires { (a < 32) × Wide lanes.old }
    ensures { lanes.new ≡ keep_at lanes.old a l }
{
    let k = 3 * a;
    lanes[k] = l.p as u64;
    lanes[k + 1] = l.word;
    lanes[k + 2] = l.left as u64;
}

// One node on, where a bit is left, the node has a child on its side and both children's numbers are nodes'; else the walk stays. One test says the last: the second child
// stands before the last node.
fn step(w: &[u32], b: usize, n: u32, l: Lane) -> Lane
    requires { Room w.now b n × On b n l }
    ensures { Goes w.now b n l result }
{
    let p = l.p;
    let x = w[p];
    let next = of_word(l.word, l.left).next();
    match next {
        None => l,
        Some((bit, later)) => {
            let c = turn(bit, x);
            if c == 0 {
                return l;
            }
            if b + (n as usize - 1) <= p + (x / 2) as usize {
                return l;
            }
            Lane {
                p: p + c as usize,
                word: later.hi,
                left: later.len,
            }
        }
    }
}

// Moves walk a by up to two nodes, and says whether it may go on.
fn visit(w: &[u32], b: usize, n: u32, lanes: &mut [u64; NUMBERS], a: usize) -> bool
    requires { Room w.now b n × (a < 32) × Wide lanes.old × On b n (lane_at lanes.old a) }
    ensures { Moved w.now b n a lanes.old lanes.new }
{
    let l = lane_at(lanes, a);
    let m = step(w, b, n, l);
    let r = step(w, b, n, m);
    keep(lanes, a, r);
    r.left < m.left
}

// Of k walks that go on, the one at place j does, or is left out: the last takes its place.
fn leave(live: &mut [usize; LANES], e: usize, k: usize, j: usize, on: bool) -> usize
    requires { Live e k live.old × (j < k) }
    ensures { Live e result live.new × (result ≡ cond on k (k - 1)) }
{
    if on {
        return k;
    }
    live[j] = live[k - 1];
    k - 1
}

// The place of the next walk.
fn ahead(j: usize, on: bool) -> usize
    requires { j < 32 }
    ensures { result ≡ cond on (j + 1) j }
{
    if on { j + 1 } else { j }
}

// One round over the k walks that go on, of e; it says how many still do. The last of them comes to the place of one that stays, so k falls where j stays: no
// range counts them.
fn round(
    w: &[u32],
    b: usize,
    n: u32,
    lanes: &mut [u64; NUMBERS],
    e: usize,
    live: &mut [usize; LANES],
    count: usize,
) -> usize
    requires { Room w.now b n × AllOn b n e lanes.old × Live e count live.old }
    ensures { AllGo w.now b n e lanes.old lanes.new × Live e result live.new }
{
    let mut k = count;
    let mut j: usize = 0;
    while j < k {
        let a = live[j];
        let on = visit(w, b, n, lanes, a);
        k = leave(live, e, k, j, on);
        j = ahead(j, on);
    }
    k
}

// Rounds, until no walk goes on.
pub fn descend(
    w: &[u32],
    b: usize,
    n: u32,
    lanes: &mut [u64; NUMBERS],
    e: usize,
    live: &mut [usize; LANES],
)
    requires { Room w.now b n × AllOn b n e lanes.old × Live e e live.old }
    ensures { AllGo w.now b n e lanes.old lanes.new }
{
    let mut k = e;
    for _ in 0..ROUNDS {
        k = round(w, b, n, lanes, e, live, k);
        if k == 0 {
            return;
        }
    }
}
