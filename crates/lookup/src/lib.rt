// Lookups: the member that contains a query, whether there is one, and whether a set is empty. Each reads the header, the record of its set and one path down a trie: no pass over the pool.
ghost use Rattle.std.specs.Prelude.{true, ◌≡◌};
ghost use Rattle.nets.specs.Networks.{with_len, with_len_no, cleared, has_bit_past};
ghost use Rattle.pool_state.specs.Rules.{told_as};
ghost use Rattle.lookup.specs.Rules.{supernet_as, contains_as, supernet_rule, contains_rule, empty_rule};

use nets::{Net, Refusal, has_bit_past};
use pool_header::NODES;
use trie_lookup::Shown;
use walking::{lookup, root};

mod beginning;
mod second;
pub mod walking;

// What supernet answers: the member that contains the query, if there is one; how many nodes were read; and whether a set bit past the query's length was cut.
#[derive(Clone, Copy)]
pub struct Covering {
    pub member: Option<Net>,
    pub steps: u8,
    pub cut: bool,
}

// What contains answers: whether there is such a member, how many nodes were read, and whether a bit was cut.
#[derive(Clone, Copy)]
pub struct Contained {
    pub is_member: bool,
    pub steps: u8,
    pub cut: bool,
}

// The member of that length around the query, found in so many steps.
fn member(net: Net, len: u8, steps: u8) -> Result<Covering, Refusal>
    requires { with_len_no net len ≡ 0 }
    ensures { supernet_as result ≡ (0, (true, (cleared (with_len net len), (steps, has_bit_past net)))) }
{
    let m = net.with_new_prefix(len)?;
    Ok(Covering {
        member: Some(m),
        steps,
        cut: has_bit_past(net),
    })
}

// The member of a set that contains the whole network, and how many nodes were read.
pub fn supernet(pool: &[u32], set: u32, net: Net) -> Result<Covering, Refusal>
    ensures { supernet_as result ≡ supernet_rule pool.now set net }
{
    let s = lookup(pool, set, net);
    match s {
        Shown::Member(len, steps) => member(net, len, steps),
        Shown::Nothing(steps) => Ok(Covering {
            member: None,
            steps,
            cut: has_bit_past(net),
        }),
        Shown::Refused(no) => Err(no),
    }
}

// Whether a member of a set contains the whole network, and how many nodes were read.
pub fn contains(pool: &[u32], set: u32, net: Net) -> Result<Contained, Refusal>
    ensures { contains_as result ≡ contains_rule pool.now set net }
{
    let s = lookup(pool, set, net);
    match s {
        Shown::Member(_, steps) => Ok(Contained {
            is_member: true,
            steps,
            cut: has_bit_past(net),
        }),
        Shown::Nothing(steps) => Ok(Contained {
            is_member: false,
            steps,
            cut: has_bit_past(net),
        }),
        Shown::Refused(no) => Err(no),
    }
}

// Whether a set has no member.
pub fn is_empty(pool: &[u32], set: u32) -> Result<bool, Refusal>
    ensures { told_as result ≡ empty_rule pool.now set }
{
    let r = root(pool, set)?;
    if pool[NODES] < r {
        return Err(Refusal::Damaged);
    }
    Ok(r == 0)
}
