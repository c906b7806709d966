// The reports on a pool.
ghost use Rattle.std.specs.Prelude.{◌≡◌};
ghost use Rattle.pool_state.specs.Decode.{decode};
ghost use Rattle.pool_state.specs.Rules.{free_rule, held_rule, plan_rule};
ghost use Rattle.pool.specs.Words.{words_rule};
ghost use Rattle.calls_replies.specs.Replies.{one_reply, two_reply};
ghost use Rattle.calls_packed.specs.Packed.{packed, first_of, second_of};

use calls_packed::{first_of, packed, second_of};
use calls_replies::{of_answer, of_report};

// How many words a pool of so many sets and nodes needs.
#[unsafe(no_mangle)]
pub extern "C" fn marlbrace_words(sets: u32, nodes: u32) -> u64
    ensures { result ≡ packed (one_reply (words_rule sets nodes 0)) }
{
    packed(of_answer(pool::words(sets, nodes, 0)))
}

// The same where so many of the sets are indexed.
#[unsafe(no_mangle)]
pub extern "C" fn marlbrace_words_indexed(sets: u32, nodes: u32, indexed: u32) -> u64
    ensures { result ≡ packed (one_reply (words_rule sets nodes indexed)) }
{
    packed(of_answer(pool::words(sets, nodes, indexed)))
}

// The free nodes.
#[unsafe(no_mangle)]
pub extern "C" fn marlbrace_free(pool: &[u32]) -> u64
    ensures { result ≡ packed (one_reply (free_rule (decode pool.now))) }
{
    packed(of_answer(pool::free(pool)))
}

// The nodes of a set.
#[unsafe(no_mangle)]
pub extern "C" fn marlbrace_held(pool: &[u32], set: u32) -> u64
    ensures { result ≡ packed (first_of (two_reply (held_rule (decode pool.now) set))) }
{
    packed(first_of(of_report(pool::held(pool, set))))
}

// The networks of a set.
#[unsafe(no_mangle)]
pub extern "C" fn marlbrace_networks(pool: &[u32], set: u32) -> u64
    ensures { result ≡ packed (second_of (two_reply (held_rule (decode pool.now) set))) }
{
    packed(second_of(of_report(pool::held(pool, set))))
}

// The share of a set.
#[unsafe(no_mangle)]
pub extern "C" fn marlbrace_share(pool: &[u32], set: u32) -> u64
    ensures { result ≡ packed (first_of (two_reply (plan_rule (decode pool.now) set))) }
{
    packed(first_of(of_report(pool::plan(pool, set))))
}

// The limit of a set.
#[unsafe(no_mangle)]
pub extern "C" fn marlbrace_limit(pool: &[u32], set: u32) -> u64
    ensures { result ≡ packed (second_of (two_reply (plan_rule (decode pool.now) set))) }
{
    packed(second_of(of_report(pool::plan(pool, set))))
}
