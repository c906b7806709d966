// What the calls with a network ask first.
ghost use Rattle.pool_state.specs.Steps.{Surveyed};
ghost use Rattle.change_ask.specs.Steps.{Asks};

use nets::{Net, PrefixBits, Refusal};
use pool_check::seats::seat_of;
use pool_header::FAMILY;
use pool_state::Survey;

// The network is one of the pool's family.
pub fn ask_found(
    pool: &[u32],
    set: u32,
    found: Survey,
    net: Net,
) -> Result<(Survey, PrefixBits), Refusal>
    requires { Surveyed pool.now set found }
    ensures { Asks pool.now set net result }
{
    if net.family as u32 != pool[FAMILY] {
        return Err(Refusal::WrongFamily);
    }
    let s = net.prefix_bits()?;
    Ok((found, s))
}

// The pool is sound, the set is there, and the network is one of the pool's family.
pub fn ask(pool: &[u32], set: u32, net: Net) -> Result<(Survey, PrefixBits), Refusal>
    ensures { Asks pool.now set net result }
{
    let (found, _) = seat_of(pool, set)?;
    ask_found(pool, set, found, net)
}
