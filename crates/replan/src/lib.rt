// Another share and limit for a set of a pool, in place: no list changes. Where a call is refused, no word changes.
ghost use Rattle.std.specs.Prelude.{◌≡◌};
ghost use Rattle.pool_state.specs.States.{State};
ghost use Rattle.pool_state.specs.Decode.{decode, sound};
ghost use Rattle.pool_state.specs.Rules.{answer_as};
ghost use Rattle.pool_state.specs.Changes.{set_at, fits, planned, Replanned};
ghost use Rattle.pool_state.specs.Steps.{Surveyed};

use nets::Refusal;
use pool_change::judging::room;
use pool_check::seats::seat_of;
use pool_header::{HEAD, LIMIT, RECORD, SHARE};
use pool_state::Survey;

// Whether the surveyed set may have this share and this limit. Its nodes are within its room already, so of its claim only the share is to be asked.
fn may_plan(pool: &[u32], set: u32, found: Survey, share: u32, limit: u32) -> bool
    requires { Surveyed pool.now set found }
    ensures { (S : State) → decode pool.now ≡ sound S → result ≡ fits S set (planned (set_at S set) share limit) }
{
    let held = found.held;
    let space = room(pool, set, found);
    if limit < share {
        return false;
    }
    if limit < held {
        return false;
    }
    share <= space
}

// Gives a set another share and limit. Answers the nodes that it holds.
pub fn replan(pool: &mut [u32], set: u32, share: u32, limit: u32) -> Result<u32, Refusal>
    ensures { Replanned pool.old set share limit (answer_as result) pool.new }
{
    let (found, _) = seat_of(pool, set)?;
    if !may_plan(pool, set, found, share, limit) {
        return Err(Refusal::BadShare);
    }
    let record = HEAD + RECORD * (set as usize);
    pool[record + SHARE] = share;
    pool[record + LIMIT] = limit;
    Ok(found.held)
}
