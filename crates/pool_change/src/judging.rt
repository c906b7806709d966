// Judging a result before anything is written: whether its set is public-only, the limit of its set, and the room that the other sets leave.
ghost use Rattle.std.specs.Prelude.{◌≡◌};
ghost use Rattle.pool_state.specs.States.{State, room_of};
ghost use Rattle.pool_state.specs.Decode.{decode, sound};
ghost use Rattle.pool_state.specs.Changes.{set_at};
ghost use Rattle.pool_state.specs.Steps.{Surveyed, Judges};

use nets::Refusal;
use pool_header::{HEAD, LIMIT, NODES, PUBLIC, RECORD, SHARE};
use pool_state::Survey;

// Whether a set is public-only.
pub fn is_public(w: &[u32], set: u32, v: Survey) -> bool
    requires { Surveyed w.now set v }
    ensures { (S : State) → decode w.now ≡ sound S → result ≡ (set_at S set).public }
{
    w[HEAD + RECORD * (set as usize) + PUBLIC] == 1
}

// The nodes that the list of a set may have: the pool's less the claims of the other sets.
pub fn room(w: &[u32], set: u32, v: Survey) -> u32
    requires { Surveyed w.now set v }
    ensures { (S : State) → decode w.now ≡ sound S → result ≡ room_of S set }
{
    let share = w[HEAD + RECORD * (set as usize) + SHARE];
    if v.held < share {
        return w[NODES] - (v.claimed - share);
    }
    w[NODES] - (v.claimed - v.held)
}

// The verdict on a result of n nodes, where `clear` says whether the set may have it as far as its mark goes: not so, above the limit, above the room, or none of these.
pub fn judge(w: &[u32], set: u32, v: Survey, clear: bool, n: u32) -> Result<(), Refusal>
    requires { Surveyed w.now set v }
    ensures { Judges w.now set clear n result }
{
    if !clear {
        return Err(Refusal::NotPublic);
    }
    if w[HEAD + RECORD * (set as usize) + LIMIT] < n {
        return Err(Refusal::OverLimit);
    }
    if room(w, set, v) < n {
        return Err(Refusal::NoRoom);
    }
    Ok(())
}
