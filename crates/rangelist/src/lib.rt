// Ranges out, in either form of a pool: the fewest ranges of addresses that cover a set, ascending and apart.
#![tactic(auto)]

ghost use Rattle.nets.specs.Tries.{Trie};
ghost use Rattle.listing.specs.Seated.{HeldIn};
ghost use Rattle.trie_ranges.specs.Opening.{Ranged};
ghost use Rattle.rangelist.specs.Calls.{Ranges};

use listing::seated::is_first;
use nets::Refusal;
use nodes::seats::Seat;
use pool_check::seats::seat_of;
use trie_ranges::rows;

// Goes through the trie in a seat and writes its ranges, where they fit; answers how many there are. Rows of length 0 are for counting.
fn write_ranges(pool: &[u32], s: Seat, rows: &mut [u64]) -> usize
    requires { (t : Trie) × HeldIn pool.now s t }
    ensures { (t : Trie) → HeldIn pool.now s t → Ranged s.family t rows.old rows.new result }
{
    if is_first(pool) {
        return rows::write_ranges(pool, s.base, s.first, s.end, s.family, rows);
    }
    let n = (s.end - 1) as u32;
    kept_ranges::write_ranges(pool, s.family, s.base, n, s.first, s.end, rows)
}

// Writes the ranges of a set, four numbers for each: high and low word of the first address and of the last. Answers how many there are. Entries past them
// keep what they had, and a refusal writes nothing: a first pass over the set counts the ranges, with no rows to write to.
pub fn ranges(pool: &[u32], set: u32, rows: &mut [u64]) -> Result<u32, Refusal>
    ensures { Ranges pool.now set rows.old result rows.new }
{
    let (_, s) = seat_of(pool, set)?;
    let n = write_ranges(pool, s, &mut []);
    if rows.len() < 4 * n {
        return Err(Refusal::ShortBuffer);
    }
    write_ranges(pool, s, rows);
    Ok(n as u32)
}
