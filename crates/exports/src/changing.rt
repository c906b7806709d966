// The calls that change a pool. Each answers the nodes of the set that it changed.
ghost use Rattle.std.specs.Prelude.{◌≡◌};
ghost use Rattle.nets.specs.Networks.{net_words};
ghost use Rattle.pool_state.specs.Rules.{setup, Laid};
ghost use Rattle.pool_state.specs.Changes.{Replanned, Marked};
ghost use Rattle.change.specs.Calls.{Added, Removed, Reports};
ghost use Rattle.change.specs.Simplified.{Simplifies};
ghost use Rattle.combine.specs.Rules.{Merged, Intersected, Excluded, ExcludedApart};
ghost use Rattle.setfile.specs.Loading.{Loaded};
ghost use Rattle.change_many.specs.Calls.{span_words, FileAdded, FileRemoved, RangeAdded};
ghost use Rattle.calls_replies.specs.Replies.{one_reply, write_reply};
ghost use Rattle.exports.specs.Exported.{Tells, ReadsLines};

use calls_packed::packed;
use calls_replies::{of_answer, of_noted, only};

// Lays out a pool of empty sets, with a share and a limit for each.
#[unsafe(no_mangle)]
pub extern "C" fn marlbrace_layout(
    pool: &mut [u32],
    family: u8,
    sets: u32,
    nodes: u32,
    shares: &[u32],
    limits: &[u32],
) -> u64
    ensures { Tells (Laid pool.old (setup family 0 sets nodes shares.now limits.now 0)) one_reply result pool.new }
{
    packed(of_answer(pool::layout(pool, family, 0, sets, nodes, shares, limits, 0)))
}

// The same, with an index by the first eight bits for each set s whose bit s is set in `indexed`.
#[unsafe(no_mangle)]
pub extern "C" fn marlbrace_layout_indexed(
    pool: &mut [u32],
    family: u8,
    sets: u32,
    nodes: u32,
    shares: &[u32],
    limits: &[u32],
    indexed: u64,
) -> u64
    ensures { Tells (Laid pool.old (setup family 0 sets nodes shares.now limits.now indexed)) one_reply result pool.new }
{
    packed(of_answer(pool::layout(pool, family, 0, sets, nodes, shares, limits, indexed)))
}

// The same with every choice: the form too, 0 for the first and 1 for the second, in which no set is indexed.
#[unsafe(no_mangle)]
pub extern "C" fn marlbrace_layout_form(
    pool: &mut [u32],
    family: u8,
    form: u32,
    sets: u32,
    nodes: u32,
    shares: &[u32],
    limits: &[u32],
    indexed: u64,
) -> u64
    ensures { Tells (Laid pool.old (setup family form sets nodes shares.now limits.now indexed)) one_reply result pool.new }
{
    packed(of_answer(pool::layout(pool, family, form, sets, nodes, shares, limits, indexed)))
}

// Adds a network to a set.
#[unsafe(no_mangle)]
pub extern "C" fn marlbrace_add(
    pool: &mut [u32],
    set: u32,
    family: u8,
    hi: u64,
    lo: u64,
    len: u8,
) -> u64
    ensures { Tells (Reports (net_words family hi lo len) (Added pool.old set (net_words family hi lo len))) write_reply result pool.new }
{
    packed(of_noted(change::add(pool, set, crate::net(family, hi, lo, len))))
}

// Removes a network from a set.
#[unsafe(no_mangle)]
pub extern "C" fn marlbrace_remove(
    pool: &mut [u32],
    set: u32,
    family: u8,
    hi: u64,
    lo: u64,
    len: u8,
) -> u64
    ensures { Tells (Reports (net_words family hi lo len) (Removed pool.old set (net_words family hi lo len))) write_reply result pool.new }
{
    packed(of_noted(change::remove(pool, set, crate::net(family, hi, lo, len))))
}

// Joins the halves of each block in a set.
#[unsafe(no_mangle)]
pub extern "C" fn marlbrace_simplify(pool: &mut [u32], set: u32) -> u64
    ensures { Tells (Simplifies pool.old set) one_reply result pool.new }
{
    packed(of_answer(change::simplify(pool, set)))
}

// Writes what either set has, simplified, into an empty one.
#[unsafe(no_mangle)]
pub extern "C" fn marlbrace_merge(pool: &mut [u32], to: u32, first: u32, second: u32) -> u64
    ensures { Tells (Merged pool.old to first second) one_reply result pool.new }
{
    packed(of_answer(combine::merge(pool, to, first, second)))
}

// Writes what both sets have, simplified, into an empty one.
#[unsafe(no_mangle)]
pub extern "C" fn marlbrace_intersect(pool: &mut [u32], to: u32, first: u32, second: u32) -> u64
    ensures { Tells (Intersected pool.old to first second) one_reply result pool.new }
{
    packed(of_answer(combine::intersect(pool, to, first, second)))
}

// Writes what the first set has and the second has not, simplified, into an empty one.
#[unsafe(no_mangle)]
pub extern "C" fn marlbrace_exclude(pool: &mut [u32], to: u32, first: u32, second: u32) -> u64
    ensures { Tells (Excluded pool.old to first second) one_reply result pool.new }
{
    packed(of_answer(combine::exclude(pool, to, first, second)))
}

// The same with the members left apart. Excluding an empty set copies one.
#[unsafe(no_mangle)]
pub extern "C" fn marlbrace_exclude_apart(pool: &mut [u32], to: u32, first: u32, second: u32) -> u64
    ensures { Tells (ExcludedApart pool.old to first second) one_reply result pool.new }
{
    packed(of_answer(combine::exclude_apart(pool, to, first, second)))
}

// Gives a set another share and limit.
#[unsafe(no_mangle)]
pub extern "C" fn marlbrace_replan(pool: &mut [u32], set: u32, share: u32, limit: u32) -> u64
    ensures { Tells (Replanned pool.old set share limit) one_reply result pool.new }
{
    packed(of_answer(replan::replan(pool, set, share, limit)))
}

// Makes an empty set public-only, for good.
#[unsafe(no_mangle)]
pub extern "C" fn marlbrace_make_public(pool: &mut [u32], set: u32) -> u64
    ensures { Tells (Marked pool.old set) one_reply result pool.new }
{
    packed(of_answer(make_public::make_public(pool, set)))
}

// Gives an empty set the list of a set file.
#[unsafe(no_mangle)]
pub extern "C" fn marlbrace_load(pool: &mut [u32], set: u32, file: &[u8]) -> u64
    ensures { Tells (Loaded pool.old set file.now) one_reply result pool.new }
{
    packed(of_answer(setfile::load(pool, set, file)))
}

// Adds the networks of a set file to a set, all or none.
#[unsafe(no_mangle)]
pub extern "C" fn marlbrace_add_file(pool: &mut [u32], set: u32, file: &[u8]) -> u64
    ensures { Tells (FileAdded pool.old set file.now) one_reply result pool.new }
{
    packed(of_answer(change_many::add_file(pool, set, file)))
}

// Removes the networks of a set file from a set, all or none.
#[unsafe(no_mangle)]
pub extern "C" fn marlbrace_remove_file(pool: &mut [u32], set: u32, file: &[u8]) -> u64
    ensures { Tells (FileRemoved pool.old set file.now) one_reply result pool.new }
{
    packed(of_answer(change_many::remove_file(pool, set, file)))
}

// Adds a range of addresses to a set: the fewest networks that have exactly these addresses, all or none.
#[unsafe(no_mangle)]
pub extern "C" fn marlbrace_add_range(
    pool: &mut [u32],
    set: u32,
    family: u8,
    first_hi: u64,
    first_lo: u64,
    last_hi: u64,
    last_lo: u64,
) -> u64
    ensures { Tells (RangeAdded pool.old set (span_words family first_hi first_lo last_hi last_lo)) one_reply result pool.new }
{
    let span = change_many::span_of(family, first_hi, first_lo, last_hi, last_lo);
    packed(of_answer(change_many::add_range(pool, set, span)))
}

// Adds the networks of lines of text to set 0, up to the first line that is refused: the counts are the number of that line, or of the one behind the last, and how many lines
// were trimmed.
#[unsafe(no_mangle)]
pub extern "C" fn marlbrace_lines(pool: &mut [u32], text: &[u8], counts: &mut [u64; 2]) -> u64
    ensures { ReadsLines pool.old text.now result pool.new counts.new }
{
    let fed = lines::feed(pool, lines::start(), text);
    let r = lines::finish(pool, fed);
    *counts = [r.number, r.trimmed];
    packed(only(r.no))
}
