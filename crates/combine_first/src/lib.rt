// A combination in a pool of the first form. Nothing is written before the result is known to fit: it is counted and judged, and then written into a gap of just its nodes;
// or, where it would go behind all nodes and fits however many it has, written at once.
ghost use Rattle.std.specs.Prelude.{◌≡◌, true, ℕ, ◌+◌, ◌≤◌, ◌<◌, get_or};
ghost use Rattle.nets.specs.Networks.{width};
ghost use Rattle.nets.specs.Tries.{Trie};
ghost use Rattle.pool_state.specs.Rules.{answer_as};
ghost use Rattle.combine_sources.specs.Rules.{Combined};
ghost use Rattle.combine_sources.specs.Steps.{combine_l, Started};
ghost use Rattle.combine_write.specs.Steps.{Reads};
ghost use Rattle.combine_first.specs.Steps.{Admits, Begun, most_nodes, Sure};
ghost use Rattle.pool_state.specs.Steps.{Surveyed};

use combine_sources::{EXCLUDE, Sources};
use combine_write::copying::is_copy;
use combine_write::{append, count, write};
use nets::Refusal;
use pool_change::judging::{is_public, judge, room};
use pool_change::relinking::granted;
use pool_header::{FAMILY, HEAD, LIMIT, RECORD};
use pool_state::Survey;
use trie_meets::combined::op_is_clear;

// Whether the destination may have the result as far as its mark goes: it is not public-only, or the result overlaps no inner network. The sources tell, and nothing is built.
fn is_admitted(pool: &[u32], op: usize, to: u32, s: Sources, v: Survey) -> bool
    requires surveyed { Surveyed pool.now to v × (width (get_or pool.now 1 0) < s.levels) }
    requires reads { (t : Trie) × (u : Trie) × Reads pool.now s v t u }
    ensures { Admits pool.now op to s v result }
{
    if !is_public(pool, to, v) {
        return true;
    }
    op_is_clear(pool, s.base, op, s.first, s.second, s.levels, pool[FAMILY])
}

// The most nodes that the result can have.
fn most_nodes(op: usize, s: Sources) -> usize
    requires { (s.nodes ≤ 4194304) × (s.others ≤ 4194304) }
    ensures { result ≡ most_nodes op s.nodes s.others }
{
    if op < EXCLUDE {
        return s.nodes + s.others;
    }
    s.nodes + 2 * s.others
}

// Whether the destination may have the result, which goes behind all nodes and fits, however many of them it has. A copy is counted already.
fn surely_fits(pool: &[u32], op: usize, to: u32, s: Sources, v: Survey, clear: bool) -> bool
    requires surveyed { Surveyed pool.now to v }
    requires nodes_bound { (s.nodes ≤ 4194304) × (s.others ≤ 4194304) }
    ensures { result ≡ true → (clear ≡ true) × Sure pool.now op to s v }
{
    if !clear {
        return false;
    }
    if v.at != v.used + 1 {
        return false;
    }
    if is_copy(op, s) {
        return false;
    }
    let n = most_nodes(op, s);
    if (pool[HEAD + RECORD * (to as usize) + LIMIT] as usize) < n {
        return false;
    }
    n <= room(pool, to, v) as usize
}

// A combination whose result surely fits.
fn uncounted(pool: &mut [u32], op: usize, to: u32, s: Sources, v: Survey) -> Result<u32, Refusal>
    requires { ((first : ℕ) × (second : ℕ) × Begun op pool.old to first second v s true) × Sure pool.old op to s v }
    ensures { (first second : ℕ) → Begun op pool.old to first second v s true → Combined (combine_l op) pool.old to first second (answer_as result) pool.new }
{
    let nodes = append(pool, op, s, v);
    granted(pool, to, v, nodes)
}

// A combination whose result is counted and judged before it is written; `clear` says whether the destination may have it as far as its mark goes.
fn counted(
    pool: &mut [u32],
    op: usize,
    to: u32,
    s: Sources,
    v: Survey,
    clear: bool,
) -> Result<u32, Refusal>
    requires { (first : ℕ) × (second : ℕ) × Begun op pool.old to first second v s clear }
    ensures { (first second : ℕ) → Begun op pool.old to first second v s clear → Combined (combine_l op) pool.old to first second (answer_as result) pool.new }
{
    let n = count(pool, op, s) as u32;
    judge(pool, to, v, clear, n)?;
    write(pool, op, s, v, n);
    granted(pool, to, v, n)
}

// A combination in a pool of the first form.
pub fn by_nodes(pool: &mut [u32], op: usize, to: u32, s: Sources, v: Survey) -> Result<u32, Refusal>
    requires { ((first : ℕ) × (second : ℕ) × Started op pool.old to first second v s) × (get_or pool.old 5 0 ≡ 0) }
    ensures { (first second : ℕ) → Started op pool.old to first second v s → Combined (combine_l op) pool.old to first second (answer_as result) pool.new }
{
    let clear = is_admitted(pool, op, to, s, v);
    if surely_fits(pool, op, to, s, v, clear) {
        return uncounted(pool, op, to, s, v);
    }
    counted(pool, op, to, s, v, clear)
}
