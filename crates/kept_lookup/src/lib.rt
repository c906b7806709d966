// The walk of a lookup in the second form: down by the bits of the query, one node a turn.
ghost use Rattle.std.specs.Prelude.{◌≡◌};
ghost use Rattle.nets.specs.Networks.{net_bits};
ghost use Rattle.nets.specs.Tries.{side};
ghost use Rattle.kept_nodes.specs.Parse.{KeptRoom};
ghost use Rattle.kept_lookup.specs.Walks.{Query, kept_walk_from};

use kept_reading::reading::{distance, net_at};
use kept_reading::strings::{bit_at, leads};
use nets::Net;

// What a path shows: a member of that length, or nothing, each with how many nodes read lead the query; or damage. Three outcomes, two of them with that
// number: a Result of an Option would hold it in two places.
#[derive(Clone, Copy)]
pub enum Shown {
    Member(u8, u8),
    Nothing(u8),
    Damaged,
}

// The distance to the child on the side of the bit, where d is the first's.
pub fn step(second: bool, d: u32) -> u32
    ensures { result ≡ side second d 1 }
{
    if second {
        return 1;
    }
    d
}

// What the path down from the root's number shows, where the nodes 1..=n stand from b on. A string is read where its length is no more than the query's.
pub fn kept_walk_from(w: &[u32], family: u8, b: usize, n: u32, root: u32, q: Net) -> Shown
    requires { KeptRoom family w.now b n × Query family q }
    ensures { result ≡ kept_walk_from family w.now b n (net_bits q) root }
{
    if root == 0 {
        return Shown::Nothing(0);
    }
    if n < root {
        return Shown::Damaged;
    }
    let mut i = root;
    let mut least: u8 = 0;
    let mut count: u8 = 0;
    loop {
        let d = distance(w, family, b, n, i);
        if n < i + d {
            return Shown::Damaged;
        }
        let s = net_at(w, family, b, n, i);
        if s.len < least {
            return Shown::Damaged;
        }
        if q.len < s.len {
            return Shown::Nothing(count);
        }
        if !leads(s, q) {
            return Shown::Nothing(count);
        }
        count += 1;
        if d == 0 {
            return Shown::Member(s.len, count);
        }
        if s.len == q.len {
            return Shown::Nothing(count);
        }
        i += step(bit_at(q, s.len), d);
        least = s.len + 1;
    }
}
