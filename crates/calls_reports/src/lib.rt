// The calls that read the pool and answer with numbers, a flag or a network.
ghost use Rattle.std.specs.Prelude.{◌≡◌};
ghost use Rattle.calls_reports.specs.Reports.{from_of, report_of, entry_of};

use calls_bytes::{Call, Reply, table};
use calls_replies::{
    of_answer, of_contained, of_covering, of_entry, of_follower, of_report, of_told,
};
use nets::Net;

// From the start, or behind the network.
fn from_of(c: Call) -> Option<Net>
    ensures { result ≡ from_of c }
{
    if c.b == 0 {
        return None;
    }
    let net = c.net;
    Some(net)
}

// Entry b mod 16 of a set's page.
fn entry(pool: &[u32], set: u32, b: u32) -> Reply
    ensures { result ≡ entry_of pool.now set b }
{
    let page = netrows::page_of(pool, set);
    let answer = page.answer;
    let k = (b % 16) as usize;
    of_entry(answer, page.nets[k])
}

// A call that reads the pool, by its code; next is the one that is left.
pub fn report(pool: &[u32], c: Call) -> Reply
    ensures { result ≡ report_of pool.now c }
{
    let code = c.code;
    match code {
        table::FREE => of_answer(pool::free(pool)),
        table::HELD => of_report(pool::held(pool, c.a)),
        table::PLAN => of_report(pool::plan(pool, c.a)),
        table::SUPERNET => of_covering(lookup::supernet(pool, c.a, c.net)),
        table::CONTAINS => of_contained(lookup::contains(pool, c.a, c.net)),
        table::IS_EMPTY => of_told(lookup::is_empty(pool, c.a)),
        table::EQUAL => of_told(compare::equal(pool, c.a, c.b)),
        table::NTH => of_follower(walk::nth(pool, c.a, c.b)),
        table::LAST => of_follower(walk::last(pool, c.a)),
        table::PAGE => entry(pool, c.a, c.b),
        _ => of_follower(listing::next(pool, c.a, from_of(c))),
    }
}
