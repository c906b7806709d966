// What stands in a seat of a pool, read by the form that the pool is kept in: every decision by the form is made here.
ghost use Rattle.std.specs.Prelude.{◌≡◌, length};
ghost use Rattle.nets.specs.Tries.{Trie, list_of};
ghost use Rattle.pool_state.specs.Kept.{first, same_form};
ghost use Rattle.pool_state.specs.Decode.{form_in};
ghost use Rattle.trie_paths.specs.Laying.{row_form, tallied, clear, laid};
ghost use Rattle.trie_spots.specs.Spots.{gone_on};
ghost use Rattle.listing.specs.Seated.{HeldIn, LayableIn, GoesIn};

use nodes::seats::Seat;
use trie_list::{lengths, rows};
use trie_spots::spots;
use trie_spots::spots::Spot;

// The words say the first form; so do those that are too few to say a form.
pub fn is_first(pool: &[u32]) -> bool
    ensures { result ≡ same_form (form_in pool.now) first }
{
    if pool.len() <= 5 {
        return true;
    }
    pool[5] == 0
}

// How many networks the trie in a seat has.
pub fn count(pool: &[u32], s: Seat) -> usize
    requires { (t : Trie) × HeldIn pool.now s t }
    ensures { (t : Trie) → HeldIn pool.now s t → result ≡ length (list_of t) }
{
    if is_first(pool) {
        return rows::count(pool, s.base, s.first, s.end);
    }
    kept_list::count(s.first, s.end)
}

// How many networks each length has, of the trie in a seat.
pub fn tally(pool: &[u32], s: Seat) -> [usize; 129]
    requires { (t : Trie) × HeldIn pool.now s t }
    ensures { (t : Trie) → HeldIn pool.now s t → result ≡ tallied 0 t clear }
{
    if is_first(pool) {
        return lengths::tally(pool, s.base, s.first, s.end);
    }
    let n = (s.end - 1) as u32;
    kept_list::tally(pool, s.family, s.base, n, s.first, s.end)
}

// Writes the rows of the trie in a seat, each at the next place of its length; what stands behind them stays.
pub fn write_rows(pool: &[u32], s: Seat, next: &mut [usize; 129], rows: &mut [u64])
    requires { (t : Trie) × LayableIn pool.now s next.old (length rows.old) t }
    ensures { (t : Trie) → LayableIn pool.now s next.old (length rows.old) t
        → rows.new ≡ laid (row_form s.family) rows.old t }
{
    if is_first(pool) {
        rows::write_rows(pool, s.base, s.first, s.end, s.family, next, rows);
        return;
    }
    let n = (s.end - 1) as u32;
    kept_list::write_rows(pool, s.family, s.base, n, s.first, s.end, next, rows);
}

// At the next network of the trie in a spot's seat, or behind the last.
pub fn go_on(pool: &[u32], s: Spot) -> Spot
    requires { GoesIn pool.now s }
    ensures { (t : Trie) → HeldIn pool.now s.seat t → result ≡ gone_on (list_of t) s }
{
    if is_first(pool) {
        return spots::go_on(pool, s);
    }
    kept_spots::go_on(pool, s)
}
