// Combining two sets of a pool into a third. Where a call is refused, no word changes.
ghost use Rattle.pool_state.specs.Rules.{answer_as};
ghost use Rattle.combine_sources.specs.Steps.{Operation, combine_l};
ghost use Rattle.combine_sources.specs.Rules.{Combined};
ghost use Rattle.combine.specs.Rules.{Merged, Intersected, Excluded, ExcludedApart};

use combine_first::by_nodes;
use combine_sources::{EXCLUDE, EXCLUDE_APART, INTERSECT, MERGE, ask, sources_of};
use nets::Refusal;
use pool_header::FORM;

// Writes what an operation makes of two sets into an empty one. Answers its nodes.
fn combine(pool: &mut [u32], op: usize, to: u32, first: u32, second: u32) -> Result<u32, Refusal>
    requires { Operation op }
    ensures { Combined (combine_l op) pool.old to first second (answer_as result) pool.new }
{
    let v = ask(pool, to, first, second)?;
    let s = sources_of(pool, first, second, v);
    if pool[FORM] == 0 {
        return by_nodes(pool, op, to, s, v);
    }
    combine_kept::combine(pool, op, to, s, v)
}

// Writes the union of two sets, simplified, into an empty one. Answers its nodes.
pub fn merge(pool: &mut [u32], to: u32, first: u32, second: u32) -> Result<u32, Refusal>
    ensures { Merged pool.old to first second (answer_as result) pool.new }
{
    combine(pool, MERGE, to, first, second)
}

// Writes what two sets have in common, simplified, into an empty one. Answers its nodes.
pub fn intersect(pool: &mut [u32], to: u32, first: u32, second: u32) -> Result<u32, Refusal>
    ensures { Intersected pool.old to first second (answer_as result) pool.new }
{
    combine(pool, INTERSECT, to, first, second)
}

// Writes what the first set has and the second has not, simplified, into an empty one. Answers its nodes.
pub fn exclude(pool: &mut [u32], to: u32, first: u32, second: u32) -> Result<u32, Refusal>
    ensures { Excluded pool.old to first second (answer_as result) pool.new }
{
    combine(pool, EXCLUDE, to, first, second)
}

// The same with its members left apart: what is left of each by itself, as the Rust has it. Excluding an empty set copies one. Answers its nodes.
pub fn exclude_apart(pool: &mut [u32], to: u32, first: u32, second: u32) -> Result<u32, Refusal>
    ensures { ExcludedApart pool.old to first second (answer_as result) pool.new }
{
    combine(pool, EXCLUDE_APART, to, first, second)
}
