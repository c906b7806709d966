// Making a set of a pool public-only, for good: from then on its list overlaps no inner network. Where a call is refused, no word changes.
ghost use Rattle.pool_state.specs.Rules.{answer_as};
ghost use Rattle.pool_state.specs.Changes.{Marked};

use nets::Refusal;
use pool_check::seats::seat_of;
use pool_header::{HEAD, PUBLIC, RECORD};

// Makes an empty set public-only. Answers the nodes that it holds, which are none.
pub fn make_public(pool: &mut [u32], set: u32) -> Result<u32, Refusal>
    ensures { Marked pool.old set (answer_as result) pool.new }
{
    let (found, _) = seat_of(pool, set)?;
    if found.held != 0 {
        return Err(Refusal::Occupied);
    }
    let record = HEAD + RECORD * (set as usize);
    pool[record + PUBLIC] = 1;
    Ok(found.held)
}
