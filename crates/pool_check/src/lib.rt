// The check of a whole pool: its header, one pass over its sets, and of an indexed one the top eight levels once more; and the seat of a set.
ghost use Rattle.std.specs.Prelude.{◌≡◌, ℕ, false, Some, None, ◌+◌, ◌≤◌, ◌<◌, get_or, drop};
ghost use Rattle.pool_state.specs.States.{State};
ghost use Rattle.pool_state.specs.Decode.{indexes_at, are_indexes, sound, read_pool, decode};
ghost use Rattle.pool_state.specs.Rules.{found_of};

use pool_header::{HEAD, INDEXED, NODES, RECORD, SETS, TAG, is_header, least_words};
use pool_sets::survey_sets;
use pool_state::Survey;
use trie_index::is_index;

pub mod seats;

// How many indexed sets there are up to set s, if j stand before it, or none, where its tag or its index is wrong.
fn index_after(w: &[u32], s: usize, j: u32) -> Option<u32>
    requires s_bound { (s < get_or w.now 2 0) × (j ≤ s) }
    requires w_value { (S : State) × (read_pool w.now ≡ sound S) }
    ensures { ((k : ℕ) → result ≡ Some k → (k ≤ j + 1) × ((S : State) → read_pool w.now ≡ sound S → are_indexes w.now (indexes_at S) s j (drop s S.sets) ≡ are_indexes w.now (indexes_at S) (s + 1) k (drop (s + 1) S.sets))) × (result ≡ None → (S : State) → read_pool w.now ≡ sound S → are_indexes w.now (indexes_at S) s j (drop s S.sets) ≡ false) }
{
    let tag = w[HEAD + RECORD * s + TAG];
    if tag == 0 {
        return Some(j);
    }
    if tag != j + 1 {
        return None;
    }
    if w[INDEXED] < tag {
        return None;
    }
    let root = w[HEAD + RECORD * s];
    if !is_index(
        w,
        HEAD + RECORD * (w[SETS] as usize),
        w[NODES],
        root,
        least_words(w[SETS], w[NODES], j),
    ) {
        return None;
    }
    Some(j + 1)
}

// The tags and the indexes are those of the sets.
fn are_indexes(w: &[u32]) -> bool
    requires { (S : State) × (read_pool w.now ≡ sound S) }
    ensures { (S : State) → read_pool w.now ≡ sound S → result ≡ are_indexes w.now (indexes_at S) 0 0 S.sets }
{
    let sets = w[SETS] as usize;
    let mut j: u32 = 0;
    for s in 0..sets {
        let found = index_after(w, s, j);
        let Some(k) = found else {
            return false;
        };
        j = k;
    }
    w[INDEXED] == j
}

// What one pass over the pool finds out for the calls on one set, where the pool is sound.
pub fn survey(w: &[u32], set: u32) -> Option<Survey>
    ensures { result ≡ found_of (decode w.now) set }
{
    if !is_header(w) {
        return None;
    }
    let seen = survey_sets(w, set as usize);
    let Some(found) = seen else {
        return None;
    };
    if !are_indexes(w) {
        return None;
    }
    Some(found)
}
