// A walk through a set, network after network, that holds on to the pool it reads. Making one checks the pool; while it lives the words stay as they are, so its steps do not
// check them again, and each goes on behind the last network.
#![tactic(auto)]

ghost use Rattle.std.specs.Prelude.{◌≡◌};
ghost use Rattle.pool_state.specs.Decode.{decode};
ghost use Rattle.listing.specs.Calls.{follower_as};
ghost use Rattle.walk.specs.Walks.{walk_start};
ghost use Rattle.walk.specs.Places.{nth_rule, last_rule};

use beginning::begin;
use nets::{Net, Refusal};
use reaching::reach;
use walk_turns::turns::told;
use walking::Walk;

mod beginning;
mod reaching;
pub mod walking;

// More networks than a set can have.
const ALL: u32 = 0xffff_ffff;

// Before the first network of a set.
pub fn start<'a>(pool: &'a [u32], set: u32) -> Walk<'a>
    ensures { result ≡ walk_start pool.entry set }
{
    let b = begin(pool, set);
    Walk {
        pool,
        spot: b.spot,
        set,
        no: b.no,
    }
}

// The network at place i of a set's list, counted from 0, by a walk to it; whoever calls this needs no walk.
pub fn nth(pool: &[u32], set: u32, i: u32) -> Result<Option<Net>, Refusal>
    ensures { follower_as result ≡ nth_rule (decode pool.now) set i }
{
    let stage = reach(pool, set, i);
    let s = stage.spot;
    told(s.more, s.net, stage.no)
}

// The last network of a set's list, by a walk through all of it, which keeps the last at its end.
pub fn last(pool: &[u32], set: u32) -> Result<Option<Net>, Refusal>
    ensures { follower_as result ≡ last_rule (decode pool.now) set }
{
    let stage = reach(pool, set, ALL);
    let s = stage.spot;
    told(s.begun, s.net, stage.no)
}
