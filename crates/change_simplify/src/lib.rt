// Simplifying one set. Where the call is refused, no word changes.
ghost use Rattle.pool_state.specs.Rules.{answer_as};
ghost use Rattle.change_simplify.specs.Simplified.{Simplifies};

use nets::Refusal;
use pool_change::relinking::{granted, shift_behind};
use pool_check::seats::seat_of;
use pool_header::stride_of;
use shrinking::shrink;

mod shrinking;

// Simplifies a set: the same addresses, and afterwards no two halves of one block are both listed. Answers the nodes of the set. The result never has more nodes than
// the set, so nothing is counted before it is written.
pub fn simplify(pool: &mut [u32], set: u32) -> Result<u32, Refusal>
    ensures { Simplifies pool.old set (answer_as result) pool.new }
{
    let (found, seat) = seat_of(pool, set)?;
    let stride = stride_of(pool);
    let nodes = shrink(pool, found, seat);
    shift_behind(pool, seat.base, stride, found, nodes);
    granted(pool, set, found, nodes)
}
