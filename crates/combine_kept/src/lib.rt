// A combination in a pool of the second form: the result is counted and judged, and then written into a gap of just its nodes.
ghost use Rattle.std.specs.Prelude.{◌≡◌, ℕ, get_or};
ghost use Rattle.nets.specs.Tries.{Trie};
ghost use Rattle.trie_emit.specs.Combine.{op_on};
ghost use Rattle.branch_points.specs.KeptTries.{kept_size};
ghost use Rattle.pool_state.specs.Rules.{answer_as};
ghost use Rattle.pool_state.specs.Steps.{Surveyed};
ghost use Rattle.combine_sources.specs.Rules.{Combined};
ghost use Rattle.combine_sources.specs.Steps.{combine_l, Started};
ghost use Rattle.combine_kept.specs.Steps.{KeptReads, KeptAdmits, KeptFits, with_kept};

use combine_sources::{Sources, moved};
use kept_emit::combining::{fill, op_size};
use kept_meets::combined::op_is_clear;
use nets::Refusal;
use pool_change::judging::{is_public, judge};
use pool_change::relinking::{granted, shift_behind};
use pool_header::{FAMILY, NODES, stride_of};
use pool_state::Survey;

// Whether the destination may have the result as far as its mark goes, as in the first form.
fn is_admitted(pool: &[u32], op: usize, to: u32, s: Sources, v: Survey) -> bool
    requires surveyed { Surveyed pool.now to v }
    requires kept_reads { (t : Trie) × (u : Trie) × KeptReads pool.now s v t u }
    ensures { KeptAdmits pool.now op to s v result }
{
    if !is_public(pool, to, v) {
        return true;
    }
    let family = pool[FAMILY] as u8;
    op_is_clear(
        pool,
        family,
        s.base,
        pool[NODES],
        op,
        s.first,
        s.second,
        s.levels,
    )
}

// The nodes of the result.
fn count(pool: &[u32], op: usize, s: Sources) -> usize
    requires { (v : Survey) × (t : Trie) × (u : Trie) × KeptReads pool.now s v t u }
    ensures { (v : Survey) (t u : Trie) → KeptReads pool.now s v t u → result ≡ kept_size (op_on op s.levels t u) }
{
    let family = pool[FAMILY] as u8;
    op_size(
        pool,
        family,
        s.base,
        pool[NODES],
        op,
        s.first,
        s.second,
        s.levels,
    )
}

// Writes the result, of n nodes, in the place of the empty destination; the sets behind it move, and with them the sources that are among them.
fn write(pool: &mut [u32], op: usize, s: Sources, v: Survey, n: u32)
    requires { (t : Trie) × (u : Trie) × KeptFits pool.old op s v n t u }
    ensures { (t u : Trie) → KeptFits pool.old op s v n t u → pool.new ≡ with_kept pool.old op s v n t u }
{
    let at = v.at as usize;
    let family = pool[FAMILY] as u8;
    let nodes = pool[NODES];
    let stride = stride_of(pool);
    shift_behind(pool, s.base, stride, v, n);
    let a = moved(at, n, s.first);
    let c = moved(at, n, s.second);
    fill(
        pool,
        family,
        s.base,
        nodes,
        op,
        a,
        c,
        at,
        at + n as usize,
        s.levels,
    );
}

// Writes what an operation makes of two sets into an empty one. Answers its nodes.
pub fn combine(pool: &mut [u32], op: usize, to: u32, s: Sources, v: Survey) -> Result<u32, Refusal>
    requires { ((first : ℕ) × (second : ℕ) × Started op pool.old to first second v s) × (get_or pool.old 5 0 ≡ 0 → ⊥) }
    ensures { (first second : ℕ) → Started op pool.old to first second v s → Combined (combine_l op) pool.old to first second (answer_as result) pool.new }
{
    let clear = is_admitted(pool, op, to, s, v);
    let n = count(pool, op, s) as u32;
    judge(pool, to, v, clear, n)?;
    write(pool, op, s, v, n);
    granted(pool, to, v, n)
}
