// The networks of a set, one by one or all at once.
ghost use Rattle.std.specs.Prelude.{◌≡◌, length, Some, None};
ghost use Rattle.nets.specs.Networks.{net_words};
ghost use Rattle.pool_state.specs.Decode.{decode};
ghost use Rattle.listing.specs.Calls.{list_rule, rows_after, next_rule};
ghost use Rattle.rangelist.specs.Calls.{ranges_rule};
ghost use Rattle.rangelist.specs.Calls as ranges;
ghost use Rattle.setfile.specs.Calls.{save_rule, bytes_after};
ghost use Rattle.walk.specs.Places.{nth_rule, last_rule};
ghost use Rattle.calls_replies.specs.Replies.{one_reply, found_reply};
ghost use Rattle.calls_packed.specs.Packed.{packed};
ghost use Rattle.exports.specs.Exported.{WithRow};

use calls_packed::{packed, put_row};
use calls_replies::{of_answer, of_follower};

// The first network of a set, in the row where there is one.
#[unsafe(no_mangle)]
pub extern "C" fn marlbrace_first(pool: &[u32], set: u32, row: &mut [u64; 3]) -> u64
    ensures { WithRow (found_reply (next_rule (decode pool.now) set None)) result row.old row.new }
{
    let a = of_follower(listing::next(pool, set, None));
    put_row(row, a);
    packed(a)
}

// The first network of a set behind another, which need not be listed.
#[unsafe(no_mangle)]
pub extern "C" fn marlbrace_next(
    pool: &[u32],
    set: u32,
    family: u8,
    hi: u64,
    lo: u64,
    len: u8,
    row: &mut [u64; 3],
) -> u64
    ensures { WithRow (found_reply (next_rule (decode pool.now) set (Some (net_words family hi lo len)))) result row.old row.new }
{
    let a = of_follower(listing::next(pool, set, Some(crate::net(family, hi, lo, len))));
    put_row(row, a);
    packed(a)
}

// The network at a place of a set's list, counted from 0.
#[unsafe(no_mangle)]
pub extern "C" fn marlbrace_nth(pool: &[u32], set: u32, place: u32, row: &mut [u64; 3]) -> u64
    ensures { WithRow (found_reply (nth_rule (decode pool.now) set place)) result row.old row.new }
{
    let a = of_follower(walk::nth(pool, set, place));
    put_row(row, a);
    packed(a)
}

// The last network of a set.
#[unsafe(no_mangle)]
pub extern "C" fn marlbrace_last(pool: &[u32], set: u32, row: &mut [u64; 3]) -> u64
    ensures { WithRow (found_reply (last_rule (decode pool.now) set)) result row.old row.new }
{
    let a = of_follower(walk::last(pool, set));
    put_row(row, a);
    packed(a)
}

// Writes the networks of a set in list order, three numbers for each: high word, low word, length. The value is how many networks.
#[unsafe(no_mangle)]
pub extern "C" fn marlbrace_list(pool: &[u32], set: u32, rows: &mut [u64]) -> u64
    ensures value { result ≡ packed (one_reply (list_rule (decode pool.now) set (length rows.old))) }
    ensures rows_after { rows.new ≡ rows_after rows.old (decode pool.now) set }
{
    packed(of_answer(listing::list(pool, set, rows)))
}

// Writes the fewest ranges of addresses that cover a set, four numbers for each: high and low word of the first address and of the last. The value is how many ranges.
#[unsafe(no_mangle)]
pub extern "C" fn marlbrace_ranges(pool: &[u32], set: u32, rows: &mut [u64]) -> u64
    ensures value { result ≡ packed (one_reply (ranges_rule (decode pool.now) set (length rows.old))) }
    ensures rows_after { rows.new ≡ ranges.rows_after rows.old (decode pool.now) set }
{
    packed(of_answer(rangelist::ranges(pool, set, rows)))
}

// Writes the set file of a set. The value is how many bytes it has.
#[unsafe(no_mangle)]
pub extern "C" fn marlbrace_save(pool: &[u32], set: u32, out: &mut [u8]) -> u64
    ensures value { result ≡ packed (one_reply (save_rule (decode pool.now) set (length out.old))) }
    ensures out_after { out.new ≡ bytes_after out.old (decode pool.now) set }
{
    packed(of_answer(setfile::save(pool, set, out)))
}
