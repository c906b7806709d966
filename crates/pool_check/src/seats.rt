// The first step of every call on a set. What refuses all of them stands here alone.
ghost use Rattle.std.specs.Prelude.{◌≡◌, ℕ};
ghost use Rattle.pool_state.specs.Decode.{decode};
ghost use Rattle.pool_state.specs.Rules.{seat_of, seated_as, seated_rule};
ghost use Rattle.pool_state.specs.Steps.{Surveyed};

use crate::survey;
use nets::Refusal;
use nodes::seats::Seat;
use pool_header::{FAMILY, HEAD, RECORD, SETS};
use pool_state::Survey;

// Where the trie of the surveyed set stands.
pub fn seat_in(pool: &[u32], found: Survey) -> Seat
    requires { (k : ℕ) × Surveyed pool.now k found }
    ensures { result ≡ seat_of pool.now found }
{
    let first = found.at as usize;
    Seat {
        family: pool[FAMILY] as u8,
        base: HEAD + RECORD * (pool[SETS] as usize),
        first,
        end: first + found.held as usize,
    }
}

// What one pass found out for the set, and where its trie stands; or the refusal: the pool is damaged, or has no such set.
pub fn seat_of(pool: &[u32], set: u32) -> Result<(Survey, Seat), Refusal>
    ensures { seated_as result ≡ seated_rule (decode pool.now) set }
{
    let seen = survey(pool, set);
    let Some(found) = seen else {
        return Err(Refusal::Damaged);
    };
    if pool[SETS] <= set {
        return Err(Refusal::NoSet);
    }
    Ok((found, seat_in(pool, found)))
}
