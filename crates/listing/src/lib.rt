// Lists out, in either form of a pool: the rows of a set, and the network that follows a place. Each call on a set checks the pool in one pass; who goes
// through a whole set uses seated::go_on, which asks in its contract that a trie stands where it is to read one.
ghost use Rattle.std.specs.Prelude.{◌≡◌};
ghost use Rattle.pool_state.specs.Decode.{decode};
ghost use Rattle.listing.specs.Calls.{Listed, follower_as, next_rule};

use nets::{Net, Refusal};
use places::place_of;
use pool_check::seats::seat_of;
use seated::{go_on, tally, write_rows};
use trie_list::lengths::starts;

mod places;
pub mod seated;

// Writes the networks of a set in list order, three numbers for each: high word, low word, length. Answers how many there are. Entries past them keep what they had,
// and a refusal writes nothing.
pub fn list(pool: &[u32], set: u32, rows: &mut [u64]) -> Result<u32, Refusal>
    ensures { Listed pool.now set rows.old result rows.new }
{
    let (_, s) = seat_of(pool, set)?;
    let mut next = tally(pool, s);
    let n = starts(&mut next);
    if rows.len() < 3 * n {
        return Err(Refusal::ShortBuffer);
    }
    write_rows(pool, s, &mut next, rows);
    Ok(n as u32)
}

// The first network of a set in list order from there on.
pub fn next(pool: &[u32], set: u32, from: Option<Net>) -> Result<Option<Net>, Refusal>
    ensures { follower_as result ≡ next_rule (decode pool.now) set from }
{
    let (_, s) = seat_of(pool, set)?;
    let place = place_of(s, from)?;
    let x = go_on(pool, place);
    if x.more {
        let net = x.net;
        return Ok(Some(net));
    }
    Ok(None)
}
