// The first steps of a combination, in either form: its refusals, and what it reads.
ghost use Rattle.std.specs.Prelude.{◌≡◌, ℕ, ◌<◌, get_or};
ghost use Rattle.pool_state.specs.Decode.{decode};
ghost use Rattle.pool_state.specs.Rules.{survey_of};
ghost use Rattle.pool_state.specs.Steps.{Surveyed};
ghost use Rattle.combine_sources.specs.Steps.{Ready, Asks, sources_of, moved_to};

use nets::Refusal;
use pool_check::seats::seat_of;
use pool_header::{FAMILY, HEAD, RECORD, SETS, most_levels};
use pool_state::Survey;

// The operations, by the numbers that emission knows them by. They stay numbers: the functions on tries that take one (`trie_combine::op_size`, `emit`, ..)
// promise their answer for every number (`op_on`: each from 2 on excludes, 3 alone leaves members apart), and a type of four would ask more of their callers.
pub const MERGE: usize = 0;

pub const INTERSECT: usize = 1;

pub const EXCLUDE: usize = 2;

pub const EXCLUDE_APART: usize = 3;

// What a combination reads: the nodes from the word `base` on, the roots of its sources, 0 where one is empty, the nodes of the first and those of the other, and the levels that a trie may have.
#[derive(Clone, Copy)]
pub struct Sources {
    pub base: usize,
    pub first: usize,
    pub nodes: usize,
    pub second: usize,
    pub others: usize,
    pub levels: usize,
}

// The pool is sound, the three sets are there, and the destination is empty.
pub fn ask(pool: &[u32], to: u32, first: u32, second: u32) -> Result<Survey, Refusal>
    ensures { Asks pool.now to first second result }
{
    let (found, _) = seat_of(pool, to)?;
    let sets = pool[SETS];
    if sets <= first {
        return Err(Refusal::NoSet);
    }
    if sets <= second {
        return Err(Refusal::NoSet);
    }
    if found.held != 0 {
        return Err(Refusal::Occupied);
    }
    Ok(found)
}

// The nodes of a set: the next set that is not empty begins behind them, or the nodes in use end there.
fn nodes_of(pool: &[u32], set: u32, v: Survey) -> usize
    requires { ((k : ℕ) × Surveyed pool.now k v) × (set < get_or pool.now 2 0) }
    ensures { result ≡ (survey_of (decode pool.now) set).held }
{
    let root = pool[HEAD + RECORD * (set as usize)] as usize;
    if root == 0 {
        return 0;
    }
    let sets = pool[SETS] as usize;
    for s in set as usize + 1..sets {
        let next = pool[HEAD + RECORD * s] as usize;
        if next != 0 {
            return next - root;
        }
    }
    v.used as usize + 1 - root
}

// What a combination of two sets reads.
pub fn sources_of(pool: &[u32], first: u32, second: u32, v: Survey) -> Sources
    requires { (to : ℕ) × Ready pool.now to first second v }
    ensures { result ≡ sources_of pool.now first second }
{
    Sources {
        base: HEAD + RECORD * (pool[SETS] as usize),
        first: pool[HEAD + RECORD * (first as usize)] as usize,
        nodes: nodes_of(pool, first, v),
        second: pool[HEAD + RECORD * (second as usize)] as usize,
        others: nodes_of(pool, second, v),
        levels: most_levels(pool[FAMILY]) as usize,
    }
}

// The number of a node after n nodes were put in before node `at`.
pub fn moved(at: usize, n: u32, i: usize) -> usize
    requires { i < 4294967296 }
    ensures { result ≡ moved_to at n i }
{
    if i < at {
        return i;
    }
    i + n as usize
}
