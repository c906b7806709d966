// A walk in a local: the one function here that makes a walk and goes on with it. Its parameters are plain, so those that stand on it need no walk.
ghost use Rattle.std.specs.Prelude.{◌≡◌};
ghost use Rattle.pool_state.specs.Decode.{decode};
ghost use Rattle.walk.specs.Places.{stage_in};

use crate::beginning::Stage;
use crate::start;

// Where a walk is that has passed so many networks of a set and has gone on to the one behind them, or to the end.
pub fn reach(pool: &[u32], set: u32, left: u32) -> Stage
    ensures { result ≡ stage_in (decode pool.now) set left }
{
    let mut w = start(pool, set);
    for _k in 0..=left {
        if !w.next() {
            break;
        }
    }
    Stage {
        spot: w.spot,
        no: w.no,
    }
}
