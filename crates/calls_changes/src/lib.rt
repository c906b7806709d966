// The calls that change the pool.
ghost use Rattle.std.specs.Prelude.{◌≡◌};
ghost use Rattle.calls_changes.specs.Changes.{change_of, layout_of, write_of};

use calls_bytes::records::CALL;
use calls_bytes::tails::store_words;
use calls_bytes::{Call, Reply, table};
use calls_replies::{of_answer, of_noted, only};

// A layout has at most 255 shares and 255 limits here.
const ROW: usize = 255;

// A call that changes a set, by its code; making it public-only is the one that is left.
pub fn change(pool: &mut [u32], c: Call) -> Reply
    ensures { (result, pool.new) ≡ change_of pool.old c }
{
    let code = c.code;
    match code {
        table::ADD => of_noted(change::add(pool, c.a, c.net)),
        table::REMOVE => of_noted(change::remove(pool, c.a, c.net)),
        table::SIMPLIFY => of_answer(change::simplify(pool, c.a)),
        table::MERGE => of_answer(combine::merge(pool, c.a, c.b, c.c)),
        table::INTERSECT => of_answer(combine::intersect(pool, c.a, c.b, c.c)),
        table::EXCLUDE_APART => of_answer(combine::exclude_apart(pool, c.a, c.b, c.c)),
        table::EXCLUDE => of_answer(combine::exclude(pool, c.a, c.b, c.c)),
        table::REPLAN => of_answer(replan::replan(pool, c.a, c.b, c.c)),
        _ => of_answer(make_public::make_public(pool, c.a)),
    }
}

// Lays the pool out, in the form that c has above its lowest byte, with the shares and then the limits of the tail; hi has the marks of the indexed sets.
pub fn lay(pool: &mut [u32], c: Call, s: &[u8]) -> Reply
    ensures { (result, pool.new) ≡ layout_of pool.old c s.now }
{
    let n = c.net.len as usize;
    let m = (c.c % 256) as usize;
    let form = c.c / 256;
    let mut shares = [0u32; ROW];
    let mut limits = [0u32; ROW];
    store_words(&mut shares, 0, s, CALL, n);
    store_words(&mut limits, 0, s, CALL + 4 * n, m);
    of_answer(pool::layout(
        pool,
        c.net.family,
        form,
        c.a,
        c.b,
        &shares[..n],
        &limits[..m],
        c.net.hi,
    ))
}

// Writes the words of the tail over those of the pool.
pub fn write(pool: &mut [u32], c: Call, s: &[u8]) -> Reply
    ensures { (result, pool.new) ≡ write_of pool.old c s.now }
{
    store_words(pool, c.a as usize, s, CALL, (c.tail / 4) as usize);
    only(0)
}
