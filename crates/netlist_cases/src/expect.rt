// How what was read is held to what it must be.
ghost use Rattle.std.specs.Prelude.{◌<◌};

use crate::reading;
use crate::reading::WORDS;
use lines::Reader;
use test_counts::{Tally, count};

// A pool of 1,000 nodes has no more networks than nodes; three numbers each.
const ROWS: usize = 3000;

// Whether the list of set 0 is these rows, by way of lent ones.
fn lists(pool: &[u32], nets: &[u64], rows: &mut [u64]) -> bool {
    match listing::list(pool, 0, rows) {
        Ok(n) => n as usize == nets.len() / 3 && rows.starts_with(nets),
        Err(_) => false,
    }
}

// Whether the report of set 0 has so many networks and nodes.
fn reports(pool: &[u32], networks: usize, nodes: u32) -> bool {
    match pool::held(pool, 0) {
        Ok((n, k)) => n == nodes && k as usize == networks,
        Err(_) => false,
    }
}

fn holds(pool: &[u32], nets: &[u64], nodes: u32) -> bool {
    let mut rows = [0u64; ROWS];
    reports(pool, nets.len() / 3, nodes) && lists(pool, nets, &mut rows)
}

// At the end of the input the reading stands at the line of this number, which got the refusal no, or behind the last line where no is 0. Set 0, simplified where no line
// was refused, has these networks, a high word, a low word and a length each, and so many nodes.
pub fn ends(
    t: Tally,
    pool: &mut [u32],
    r: Reader,
    number: u64,
    no: u8,
    nets: &[u64],
    nodes: u32,
) -> Tally {
    let s = lines::finish(pool, r);
    if s.no != no || s.number != number {
        return count(t, false);
    }
    if no != 0 {
        return count(t, holds(pool, nets, nodes));
    }
    let _ = change::simplify(pool, 0);
    count(t, holds(pool, nets, nodes))
}

// Read in pieces of this size, the input comes to this.
fn in_pieces(
    t: Tally,
    input: &[u8],
    size: usize,
    number: u64,
    no: u8,
    nets: &[u64],
    nodes: u32,
) -> Tally
    requires { 0 < size }
{
    let mut pool = [0u32; WORDS];
    reading::lay(&mut pool);
    let r = reading::feed(&mut pool, lines::start(), input, size);
    ends(t, &mut pool, r, number, no, nets, nodes)
}

// Read in pieces of 1 to 23 bytes, the input comes to this.
pub fn reads(t: Tally, input: &[u8], number: u64, no: u8, nets: &[u64], nodes: u32) -> Tally {
    let mut t = t;
    for size in 1..24 {
        t = in_pieces(t, input, size, number, no, nets, nodes);
    }
    t
}
