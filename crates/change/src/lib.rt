// Changing one set: adding a network, removing one, simplifying. Where a call is refused, no word changes.
ghost use Rattle.change_ask.specs.Calls.{Added, Removed};
ghost use Rattle.change.specs.Calls.{noted_as, Reports};

use change_add::add_found;
use change_ask::ask;
use change_edit::{edit, size_with};
pub use change_simplify::simplify;
use nets::{Net, Refusal, has_bit_past};
use pool_change::judging::judge;
use pool_change::relinking::granted;
use pool_check::seats::seat_of;

// Adds a network to a set: where no member contains it, the members inside it go and it joins. Answers the nodes of the set.
pub fn add(pool: &mut [u32], set: u32, net: Net) -> Result<(u32, bool), Refusal>
    ensures { Reports net (Added pool.old set net) (noted_as result) pool.new }
{
    let (found, _) = seat_of(pool, set)?;
    let then = add_found(pool, set, found, net)?;
    Ok((then.held, has_bit_past(net)))
}

// Removes a network from a set: the members inside it go, and one that contains it gives way to the blocks beside the path. Answers the nodes of the set. What is left of a public-only set
// is clear of the inner networks, as it was.
pub fn remove(pool: &mut [u32], set: u32, net: Net) -> Result<(u32, bool), Refusal>
    ensures { Reports net (Removed pool.old set net) (noted_as result) pool.new }
{
    let (found, s) = ask(pool, set, net)?;
    let n = size_with(pool, found, s, net, false);
    judge(pool, set, found, true, n)?;
    edit(pool, found, s, net, false);
    let _ = granted(pool, set, found, n);
    Ok((n, has_bit_past(net)))
}
