// A query of a row, its answer as one number, and queries answered one by one.
ghost use Rattle.std.specs.Prelude.{true, ◌≡◌, ◌+◌, ◌-◌, ◌*◌, ◌/◌, ◌≤◌, ◌<◌, length, get_or};
ghost use Rattle.nets.specs.Networks.{has_bit_past};
ghost use Rattle.nodes.specs.Words.{put};
ghost use Rattle.pool_state.specs.Decode.{is_header};
ghost use Rattle.lookup.specs.Rules.{is_member};
ghost use Rattle.lookup_many.specs.Rules.{query_at, bit, in_one, asked_of};
ghost use Rattle.trie_index.specs.Index.{fill};
ghost use Rattle.lookup_many.specs.Lanes.{clip, clipped};

use lookup::walking::query;
use nets::{Net, has_bit_past};
use trie_lookup::Shown;

// An answer in one number: the nodes that were read, and these where a member was found, and where a set bit was cut; or the refusal, so many times.
const YES: u64 = 281474976710656;

const CUT: u64 = 562949953421312;

const REFUSED: u64 = 4294967296;

// A length as a byte: none above 254 is that of a network.
fn byte_of(len: u64) -> u8
    ensures { result ≡ clip len }
{
    u8::try_from(len).unwrap_or(255)
}

// Query i of a row.
pub fn query_at(queries: &[u64], i: usize, family: u8) -> Net
    requires { i < length queries.now / 3 }
    ensures { result ≡ clipped (query_at family queries.now i) }
{
    let k = 3 * i;
    Net {
        family,
        hi: queries[k],
        lo: queries[k + 1],
        len: byte_of(queries[k + 2]),
    }
}

// The report: bit 49 where a set bit past the length was cut.
fn report(net: Net) -> u64
    ensures { result ≡ 562949953421312 * bit (has_bit_past net) }
{
    if has_bit_past(net) {
        return CUT;
    }
    0
}

// What a path shows, as the answer of contains in one number.
pub fn number_of(net: Net, s: Shown) -> u64
    ensures { result ≡ in_one (is_member net s) }
{
    match s {
        Shown::Member(_, k) => k as u64 + YES + report(net),
        Shown::Nothing(k) => k as u64 + report(net),
        Shown::Refused(no) => REFUSED * (no.number() as u64),
    }
}

// Answers the queries from number `from` on.
pub fn one_by_one(
    pool: &[u32],
    set: u32,
    family: u8,
    queries: &[u64],
    from: usize,
    answers: &mut [u64],
)
    requires { (is_header pool.now ≡ true) × (set < get_or pool.now 2 0) × (from ≤ length queries.now / 3) × (length queries.now / 3 ≤ length answers.old) }
    ensures { answers.new ≡ put answers.old from (fill (asked_of pool.now set family queries.now) from (length queries.now / 3 - from)) }
{
    for i in from..queries.len() / 3 {
        let net = query_at(queries, i, family);
        answers[i] = number_of(net, query(pool, set, net));
    }
}
