// Pouring the networks of a file into a set that a pass over the pool has found, or out of it: the result is counted and judged before anything is written, and then written in its place.
ghost use Rattle.std.specs.Prelude.{◌≡◌, true, List};
ghost use Rattle.nets.specs.Bits.{Bits};
ghost use Rattle.nets.specs.Refusals.{Rule};
ghost use Rattle.nets.specs.Tries.{trie_of};
ghost use Rattle.pool_state.specs.States.{State};
ghost use Rattle.pool_state.specs.Changes.{list_at, Relisted};
ghost use Rattle.pool_state.specs.Rules.{answer_as};
ghost use Rattle.change_many.specs.Steps.{Pourable, Clear, PourFits, poured_of, with_poured};

use crate::by_form::{pour_seated, poured_nodes};
use nets::Refusal;
use pool_change::judging::judge;
use pool_change::relinking::{granted, shift_behind};
use pool_check::seats::seat_in;
use pool_header::stride_of;
use pool_state::Survey;
use setfile::is_admitted;

// Writes the result, of n nodes, in the place of the surveyed set; the sets behind it move, before it grows or after it has shrunk.
fn write(pool: &mut [u32], set: u32, v: Survey, bytes: &[u8], family: u8, into: bool, n: u32)
    requires { (S : State) × (l : List Bits) × PourFits pool.old set v bytes.now family into n S l }
    ensures { (S : State) (l : List Bits) → PourFits pool.old set v bytes.now family into n S l
        → pool.new ≡ with_poured pool.old v (poured_of into l (trie_of (list_at S set))) }
{
    let at = seat_in(pool, v);
    let end = at.first + n as usize;
    let s = stride_of(pool);
    if v.held < n {
        shift_behind(pool, at.base, s, v, n);
        pour_seated(pool, at, end, bytes, family, into);
        return;
    }
    pour_seated(pool, at, end, bytes, family, into);
    shift_behind(pool, at.base, s, v, n);
}

// Pours the networks of the file into the surveyed set, or out of it, where `clear` says whether the set may have the result as far as its mark goes.
pub fn pour_found(
    pool: &mut [u32],
    set: u32,
    v: Survey,
    bytes: &[u8],
    family: u8,
    into: bool,
    clear: bool,
) -> Result<u32, Refusal>
    requires { (a : State → List Rule) × (g : State → List Bits) × Pourable pool.old set v bytes.now family into a g × Clear pool.old set g clear }
    ensures { (a : State → List Rule) (g : State → List Bits) → Pourable pool.old set v bytes.now family into a g
        → Clear pool.old set g clear → Relisted pool.old set a g (answer_as result) pool.new }
{
    let at = seat_in(pool, v);
    let n = poured_nodes(pool, at, bytes, family, into) as u32;
    judge(pool, set, v, clear, n)?;
    write(pool, set, v, bytes, family, into, n);
    granted(pool, set, v, n)
}

// Pours the networks of the file into the surveyed set.
pub fn pour_into(
    pool: &mut [u32],
    set: u32,
    v: Survey,
    bytes: &[u8],
    family: u8,
) -> Result<u32, Refusal>
    requires { (a : State → List Rule) × (g : State → List Bits) × Pourable pool.old set v bytes.now family true a g }
    ensures { (a : State → List Rule) (g : State → List Bits) → Pourable pool.old set v bytes.now family true a g
        → Relisted pool.old set a g (answer_as result) pool.new }
{
    let clear = is_admitted(pool, set, v, bytes, family);
    pour_found(pool, set, v, bytes, family, true, clear)
}
