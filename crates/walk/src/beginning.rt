// Where a walk begins.
ghost use Rattle.std.specs.Prelude.{◌≡◌};
ghost use Rattle.pool_state.specs.Decode.{decode};
ghost use Rattle.walk.specs.Walks.{begin_in};

use pool_check::seats::seat_of;
use trie_spots::spots::{Spot, before_all, nowhere};

// How far a walk has come, and its number of the table.
#[derive(Clone, Copy)]
pub struct Stage {
    pub spot: Spot,
    pub no: u8,
}

// Before the first network of a set, or nowhere with the number of the refusal.
pub fn begin(pool: &[u32], set: u32) -> Stage
    ensures { result ≡ begin_in (decode pool.now) set }
{
    let seated = seat_of(pool, set);
    match seated {
        Err(no) => Stage {
            spot: before_all(nowhere()),
            no: no.number(),
        },
        Ok((_, seat)) => Stage {
            spot: before_all(seat),
            no: 0,
        },
    }
}
