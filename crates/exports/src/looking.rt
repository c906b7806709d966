// The lookups, and whether two sets are equal.
ghost use Rattle.std.specs.Prelude.{◌≡◌, length};
ghost use Rattle.nets.specs.Networks.{net_words};
ghost use Rattle.pool_state.specs.Decode.{decode};
ghost use Rattle.lookup.specs.Rules.{supernet_rule, contains_rule, empty_rule};
ghost use Rattle.lookup_many.specs.Rules.{all_no, answers_after};
ghost use Rattle.compare.specs.Rules.{equal_rule};
ghost use Rattle.calls_replies.specs.Replies.{one_reply, flag_reply, cover_reply, contain_reply};
ghost use Rattle.calls_packed.specs.Packed.{packed};
ghost use Rattle.exports.specs.Exported.{WithRow};

use calls_packed::{packed, put_row};
use calls_replies::{of_answer, of_contained, of_covering, of_told};

// Whether a member of a set contains the whole network. The value is the nodes that were read.
#[unsafe(no_mangle)]
pub extern "C" fn marlbrace_contains(
    pool: &[u32],
    set: u32,
    family: u8,
    hi: u64,
    lo: u64,
    len: u8,
) -> u64
    ensures { result ≡ packed (contain_reply (contains_rule pool.now set (net_words family hi lo len))) }
{
    packed(of_contained(lookup::contains(pool, set, crate::net(family, hi, lo, len))))
}

// Writes for each query of a row, three numbers for each as marlbrace_list writes them, what marlbrace_contains answers to it. The value is 0.
#[unsafe(no_mangle)]
pub extern "C" fn marlbrace_contains_all(
    pool: &[u32],
    set: u32,
    family: u8,
    queries: &[u64],
    answers: &mut [u64],
) -> u64
    ensures value { result ≡ packed (one_reply (all_no pool.now set family queries.now (length answers.old), 0)) }
    ensures answers_after { answers.new ≡ answers_after answers.old pool.now set family queries.now }
{
    packed(of_answer(lookup_many::contains_all(pool, set, family, queries, answers)))
}

// The member of a set that contains the whole network, in the row where there is one. The value is the nodes that were read.
#[unsafe(no_mangle)]
pub extern "C" fn marlbrace_supernet(
    pool: &[u32],
    set: u32,
    family: u8,
    hi: u64,
    lo: u64,
    len: u8,
    row: &mut [u64; 3],
) -> u64
    ensures { WithRow (cover_reply (supernet_rule pool.now set (net_words family hi lo len))) result row.old row.new }
{
    let a = of_covering(lookup::supernet(pool, set, crate::net(family, hi, lo, len)));
    put_row(row, a);
    packed(a)
}

// Whether a set has no network.
#[unsafe(no_mangle)]
pub extern "C" fn marlbrace_is_empty(pool: &[u32], set: u32) -> u64
    ensures { result ≡ packed (flag_reply (empty_rule pool.now set)) }
{
    packed(of_told(lookup::is_empty(pool, set)))
}

// Whether two sets have the same list.
#[unsafe(no_mangle)]
pub extern "C" fn marlbrace_equal(pool: &[u32], first: u32, second: u32) -> u64
    ensures { result ≡ packed (flag_reply (equal_rule (decode pool.now) first second)) }
{
    packed(of_told(compare::equal(pool, first, second)))
}
