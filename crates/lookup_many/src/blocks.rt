// Queries answered in blocks of up to 32, in the first form: their walks begin at the root, go down side by side, and end one after another.
ghost use Rattle.std.specs.Prelude.{true, ◌≡◌, ◌+◌, ◌/◌, ◌≤◌, ◌<◌, length, get_or};
ghost use Rattle.nodes.specs.Words.{put};
ghost use Rattle.pool_state.specs.Decode.{is_header};
ghost use Rattle.lookup.specs.Rules.{query};
ghost use Rattle.lookup_many.specs.Rules.{query_at, asked, asked_of};
ghost use Rattle.trie_index.specs.Index.{fill};
ghost use Rattle.trie_lanes.specs.Lanes.{Wide, Goes, Live};
ghost use Rattle.lookup_many.specs.Lanes.{clipped, first_of, lane_of, Started, Came, Ending, place_in, Seat, Fits};

use crate::asking::{number_of, query_at};
use lookup::walking::query;
use nets::{Net, PrefixBits, Refusal};
use pool_header::{FORM, HEAD, NODES, RECORD, SETS, TAG};
use trie_index::turn;
use trie_lanes::{LANES, Lane, NUMBERS, descend, keep, lane_at, of_word};
use trie_lookup::{Shown, walk_down};

// How many of so many bits are in the first word.
fn first(len: u8) -> u8
    ensures { result ≡ first_of len }
{
    if len < 64 { len } else { 64 }
}

// A walk at the place p with all bits of the network to come; of what is no network, none.
fn lane(p: usize, net: Net) -> Lane
    ensures { result ≡ lane_of p net }
{
    let q = net.prefix_bits();
    match q {
        Ok(bits) => Lane {
            p,
            word: bits.hi,
            left: first(bits.len),
        },
        Err(_) => Lane {
            p,
            word: 0,
            left: 0,
        },
    }
}

// The walks of e queries from number i on, at their beginning; all of them go on.
fn start(
    queries: &[u64],
    i: usize,
    e: usize,
    family: u8,
    p: usize,
    lanes: &mut [u64; NUMBERS],
    live: &mut [usize; LANES],
)
    requires { (i + e ≤ length queries.now / 3) × (e ≤ 32) × Wide lanes.old × (length live.old ≡ 32) }
    ensures { Started p family queries.now i e lanes.new × Live e e live.new }
{
    for a in 0..e {
        let l = lane(p, query_at(queries, i + a, family));
        keep(lanes, a, l);
        live[a] = a;
    }
}

// What is shown to a query of these bits whose walk has come to l. A leaf is a member. Where the first word ends, the walk goes on alone by the second. Where both
// children's numbers are nodes' and none is on the side of the bit, there is nothing. Otherwise every test is made, from the root on.
fn shown(w: &[u32], b: usize, n: u32, set: u32, net: Net, bits: PrefixBits, l: Lane) -> Shown
    requires { Seat w.now b n set net.family × Ending w.now b n set net bits l }
    ensures { result ≡ query w.now set net }
{
    let p = l.p;
    let x = w[p];
    let f = first(bits.len);
    let d = f - l.left;
    if x == 0 {
        return Shown::Member(d, d + 1);
    }
    let next = of_word(l.word, l.left).next();
    match next {
        None => walk_down(
            w,
            b,
            n,
            (p + 1 - b) as u32,
            bits.len,
            of_word(bits.lo, bits.len - f),
        ),
        Some((bit, _)) => {
            if b + (n as usize - 1) <= p + (x / 2) as usize {
                return query(w, set, net);
            }
            if turn(bit, x) == 0 {
                return Shown::Nothing(d + 1);
            }
            query(w, set, net)
        }
    }
}

// The answer to a query whose walk has come to l.
fn end(w: &[u32], b: usize, n: u32, set: u32, net: Net, l: Lane) -> u64
    requires { Seat w.now b n set net.family × Goes w.now b n (lane_of (place_in w.now b set) net) l }
    ensures { result ≡ asked w.now set net }
{
    let q = net.prefix_bits();
    match q {
        Ok(bits) => {
            let s = shown(w, b, n, set, net, bits, l);
            number_of(net, s)
        }
        Err(_) => number_of(net, Shown::Refused(Refusal::BadNetwork)),
    }
}

// Writes the answer to query i, whose walk has come to l.
fn end_at(
    w: &[u32],
    b: usize,
    n: u32,
    set: u32,
    family: u8,
    queries: &[u64],
    i: usize,
    l: Lane,
    answers: &mut [u64],
)
    requires { Seat w.now b n set family × Fits queries.now i 1 answers.old × Goes w.now b n (lane_of (place_in w.now b set) (clipped (query_at family queries.now i))) l }
    ensures { answers.new ≡ put answers.old i (fill (asked_of w.now set family queries.now) i 1) }
{
    let net = query_at(queries, i, family);
    answers[i] = end(w, b, n, set, net, l);
}

// Writes the answers to e queries from number i on, whose walks have come to where the row says.
fn end_all(
    w: &[u32],
    b: usize,
    n: u32,
    set: u32,
    family: u8,
    queries: &[u64],
    i: usize,
    lanes: &[u64; NUMBERS],
    e: usize,
    answers: &mut [u64],
)
    requires { Seat w.now b n set family × Fits queries.now i e answers.old × Came w.now b n (place_in w.now b set) family queries.now i e lanes.now }
    ensures { answers.new ≡ put answers.old i (fill (asked_of w.now set family queries.now) i e) }
{
    for a in 0..e {
        let l = lane_at(lanes, a);
        end_at(w, b, n, set, family, queries, i + a, l, answers);
    }
}

// Answers e queries from number i on.
fn block(
    w: &[u32],
    b: usize,
    n: u32,
    set: u32,
    family: u8,
    queries: &[u64],
    i: usize,
    e: usize,
    answers: &mut [u64],
)
    requires { Seat w.now b n set family × Fits queries.now i e answers.old × (e ≤ 32) }
    ensures { answers.new ≡ put answers.old i (fill (asked_of w.now set family queries.now) i e) }
{
    let root = w[HEAD + RECORD * (set as usize)];
    let p = b + (root as usize - 1);
    let mut lanes = [0u64; NUMBERS];
    let mut live = [0usize; LANES];
    start(queries, i, e, family, p, &mut lanes, &mut live);
    descend(w, b, n, &mut lanes, e, &mut live);
    end_all(w, b, n, set, family, queries, i, &lanes, e, answers);
}

// Answers all queries and says how many those were: none in the second form, where the set is indexed, or the root's number is no node's.
pub fn by_blocks(w: &[u32], set: u32, family: u8, queries: &[u64], answers: &mut [u64]) -> usize
    requires { (is_header w.now ≡ true) × (set < get_or w.now 2 0) × (family ≡ get_or w.now 1 0) × (length queries.now / 3 ≤ length answers.old) }
    ensures { (result ≤ length queries.now / 3) × (answers.new ≡ put answers.old 0 (fill (asked_of w.now set family queries.now) 0 result)) }
{
    let b = HEAD + RECORD * (w[SETS] as usize);
    let n = w[NODES];
    let root = w[HEAD + RECORD * (set as usize)];
    let tag = w[HEAD + RECORD * (set as usize) + TAG];
    let mut i = 0;
    if w[FORM] != 0 {
        return 0;
    }
    if tag != 0 {
        return 0;
    }
    if root == 0 {
        return 0;
    }
    if n < root {
        return 0;
    }
    while i < queries.len() / 3 {
        let e = (queries.len() / 3 - i).min(LANES);
        block(w, b, n, set, family, queries, i, e, answers);
        i += e;
    }
    i
}
