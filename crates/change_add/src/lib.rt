// Adding to a set that a pass over the pool has found. It answers what a pass would find then, so one pass serves any number of networks.
ghost use Rattle.std.specs.Prelude.{◌≡◌, ◌≤◌};
ghost use Rattle.pool_state.specs.Rules.{share_in};
ghost use Rattle.pool_state.specs.Steps.{Surveyed, survey_with};
ghost use Rattle.change_add.specs.Steps.{Admits, Grows};

use change_ask::ask_found;
use change_edit::{edit, size_with};
use inner_nets::walks::is_clear;
use nets::{Net, PrefixBits, Refusal};
use pool_change::judging::{is_public, judge};
use pool_change::relinking::granted;
use pool_header::FAMILY;
use pool_sets::claims::claim_at;
use pool_state::Survey;

// What a pass over the pool finds once the surveyed set has n nodes.
fn survey_with(pool: &[u32], set: u32, found: Survey, n: u32) -> Survey
    requires { Surveyed pool.now set found × (n ≤ 4194304) }
    ensures { result ≡ survey_with (share_in pool.now set) found n }
{
    let s = set as usize;
    let old = claim_at(pool, s, found.held);
    let new = claim_at(pool, s, n);
    Survey {
        used: found.used - found.held + n,
        claimed: found.claimed - old + new,
        at: found.at,
        held: n,
    }
}

// Whether the surveyed set may have the network as far as its mark goes: it is not public-only, or the network overlaps no inner one.
fn is_admitted(pool: &[u32], set: u32, found: Survey, s: PrefixBits) -> bool
    requires { Surveyed pool.now set found × (s.len ≤ 128) }
    ensures { Admits pool.now set s result }
{
    if !is_public(pool, set, found) {
        return true;
    }
    is_clear(s, pool[FAMILY])
}

// Adds a network to the surveyed set. Nothing is read but the network's path, the words of the header and the records.
pub fn add_found(pool: &mut [u32], set: u32, found: Survey, net: Net) -> Result<Survey, Refusal>
    requires { Surveyed pool.old set found }
    ensures { Grows pool.old set net result pool.new }
{
    let (v, s) = ask_found(pool, set, found, net)?;
    let clear = is_admitted(pool, set, v, s);
    let n = size_with(pool, v, s, net, true);
    judge(pool, set, v, clear, n)?;
    let then = survey_with(pool, set, v, n);
    edit(pool, v, s, net, true);
    let _ = granted(pool, set, v, n);
    Ok(then)
}
