// The result of a combination in the first form: its nodes counted, and written into a gap of just as many, or behind all nodes.
ghost use Rattle.std.specs.Prelude.{◌≡◌};
ghost use Rattle.nets.specs.Tries.{Trie, size};
ghost use Rattle.trie_emit.specs.Combine.{op_on};
ghost use Rattle.combine_write.specs.Steps.{Reads, Last, ResultFits, with_result};

use combine_sources::{Sources, moved};
use copying::{copy, is_copy};
use pool_change::relinking::shift_behind;
use pool_state::Survey;
use trie_combine::combining::emit;
use trie_combine::counting::op_size;
use trie_emit::emitting::{end_of, settle};

pub mod copying;

// The nodes of the result.
pub fn count(pool: &[u32], op: usize, s: Sources) -> usize
    requires { (v : Survey) × (t : Trie) × (u : Trie) × Reads pool.now s v t u }
    ensures { (v : Survey) (t u : Trie) → Reads pool.now s v t u → result ≡ size (op_on op s.levels t u) }
{
    if is_copy(op, s) {
        return s.nodes;
    }
    op_size(pool, s.base, op, s.first, s.second, s.levels)
}

// Writes the result, of n nodes, in the place of the empty destination; the sets behind it move, and with them the sources that are among them.
pub fn write(pool: &mut [u32], op: usize, s: Sources, v: Survey, n: u32)
    requires { (t : Trie) × (u : Trie) × ResultFits pool.old op s v n t u }
    ensures { (t u : Trie) → ResultFits pool.old op s v n t u → pool.new ≡ with_result pool.old op s v n t u }
{
    let at = v.at as usize;
    shift_behind(pool, s.base, 1, v, n);
    let a = moved(at, n, s.first);
    if is_copy(op, s) {
        copy(pool, s.base, a, at, n);
        return;
    }
    let c = moved(at, n, s.second);
    let x = emit(pool, s.base, op, a, c, at, s.levels);
    settle(pool, s.base, at, x);
}

// Writes the result behind all nodes. Answers its nodes.
pub fn append(pool: &mut [u32], op: usize, s: Sources, v: Survey) -> u32
    requires { (t : Trie) × (u : Trie) × Last pool.old op s v t u }
    ensures { (t u : Trie) → Last pool.old op s v t u → (result ≡ size (op_on op s.levels t u)) × (pool.new ≡ with_result pool.old op s v result t u) }
{
    let at = v.at as usize;
    let x = emit(pool, s.base, op, s.first, s.second, at, s.levels);
    settle(pool, s.base, at, x);
    (end_of(x, at) - at) as u32
}
