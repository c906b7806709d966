// Comparing two sets of a pool.
ghost use Rattle.std.specs.Prelude.{◌≡◌};
ghost use Rattle.compare.specs.Rules.{equal_rule};
ghost use Rattle.pool_state.specs.Decode.{decode};
ghost use Rattle.pool_state.specs.Rules.{told_as};

use comparing::same_nodes;
use nets::Refusal;
use pool_check::seats::seat_of;
use pool_header::{HEAD, RECORD, SETS, stride_of};

mod comparing;

// Whether two sets have the same list. No list's words begin another's, so the second set has the first's exactly if so many words are the same; it has another where fewer nodes are in use
// from its root on.
pub fn equal(pool: &[u32], first: u32, second: u32) -> Result<bool, Refusal>
    ensures { told_as result ≡ equal_rule (decode pool.now) first second }
{
    let (found, seat) = seat_of(pool, first)?;
    if pool[SETS] <= second {
        return Err(Refusal::NoSet);
    }
    let root = pool[HEAD + RECORD * (second as usize)] as usize;
    let n = found.held as usize;
    if n == 0 {
        return Ok(root == 0);
    }
    if root == 0 {
        return Ok(false);
    }
    if (found.used as usize) < root - 1 + n {
        return Ok(false);
    }
    let s = stride_of(pool);
    Ok(same_nodes(pool, seat.base, s, seat.first, root, n))
}
