// The pass over the sets of a pool: each stands where the one before it ends, in the pool's form, and keeps its rules. Of a public-only set the ways down to the inner networks are
// read, and no list.
ghost use Rattle.std.specs.Prelude.{◌≡◌, true, cond, ◌&&◌, List, ◌+◌, ◌≤◌, ◌<◌, eqb, leb, length, get_or};
ghost use Rattle.nets.specs.Bits.{Bits};
ghost use Rattle.pool_state.specs.Kept.{held_l, RoomL};
ghost use Rattle.pool_state.specs.Decode.{base, form_in, is_header, is_right, read_pool};
ghost use Rattle.pool_state.specs.Rules.{share_in, limit_in, found_of};
ghost use Rattle.pool_sets.specs.Sets.{end_in, Placed, is_unindexed, marks};

use claims::claim_at;
use kept_check::kept_end;
use nodes::reading::trie_end;
use pool_header::{
    FAMILY, FORM, HEAD, LIMIT, NODES, PUBLIC, RECORD, SETS, SHARE, TAG, most_levels,
};
use pool_state::Survey;

pub mod claims;

// The number after the nodes of set s, where i is the next number that is not placed, or 0 where the set is damaged.
fn set_end(w: &[u32], b: usize, n: u32, s: usize, i: u32) -> u32
    requires room_l { RoomL (get_or w.now 1 0) w.now b n × (1 ≤ i) }
    requires s_bound { (s < 64) × (base (s + 1) ≤ length w.now) }
    ensures { result ≡ end_in w.now b n s i }
{
    let root = w[HEAD + RECORD * s];
    if root == 0 {
        return i;
    }
    if root != i {
        return 0;
    }
    if w[FORM] == 0 {
        return trie_end(w, b, n, most_levels(w[FAMILY]), i);
    }
    kept_end(w, w[FAMILY] as u8, b, n, i)
}

// The share and the nodes of set s are at most its limit.
fn in_limit(w: &[u32], s: usize, nodes: u32) -> bool
    requires { (s < 64) × (base (s + 1) ≤ length w.now) }
    ensures { result ≡ (leb (share_in w.now s) (limit_in w.now s) && leb nodes (limit_in w.now s)) }
{
    let share = w[HEAD + RECORD * s + SHARE];
    let limit = w[HEAD + RECORD * s + LIMIT];
    if limit < share {
        return false;
    }
    nodes <= limit
}

// Set s is not indexed, where the pool is in the second form.
fn keeps_form(w: &[u32], s: usize) -> bool
    requires { (s < 64) × (base (s + 1) ≤ length w.now) }
    ensures { result ≡ is_unindexed w.now s }
{
    if w[FORM] == 0 {
        return true;
    }
    w[HEAD + RECORD * s + TAG] == 0
}

// The mark of set s, which begins at node i, is one of the two, and where it says public-only, the set keeps clear of the inner networks.
fn keeps_mark(w: &[u32], b: usize, n: u32, s: usize, i: u32) -> bool
    requires { (l : List Bits) × Placed w.now b n s i l }
    ensures { (l : List Bits) → Placed w.now b n s i l → result ≡ marks w.now s l }
{
    let mark = w[HEAD + RECORD * s + PUBLIC];
    if mark == 0 {
        return true;
    }
    if mark != 1 {
        return false;
    }
    if w[HEAD + RECORD * s] == 0 {
        return true;
    }
    if w[FORM] == 0 {
        return trie_meets::standing::is_clear(w, b, n, i, w[FAMILY]);
    }
    kept_meets::standing::is_clear(w, w[FAMILY] as u8, b, n, i)
}

// The rules of set s, whose list stands from node i up to node `end`.
fn is_right(w: &[u32], b: usize, n: u32, s: usize, i: u32, end: u32) -> bool
    requires { (l : List Bits) × Placed w.now b n s i l × (end ≡ i + held_l (form_in w.now) l) }
    ensures { (l : List Bits) → Placed w.now b n s i l → end ≡ i + held_l (form_in w.now) l → result ≡ is_right w.now (get_or w.now 1 0) s l }
{
    if !keeps_form(w, s) {
        return false;
    }
    if !in_limit(w, s, end - i) {
        return false;
    }
    keeps_mark(w, b, n, s, i)
}

// The value x where this set is the one asked for, or what there was.
fn picked(s: usize, set: usize, x: u32, y: u32) -> u32
    ensures { result ≡ cond (eqb s set) x y }
{
    if s == set {
        return x;
    }
    y
}

// What one pass over the sets of a pool with a header finds out, where none is damaged.
pub fn survey_sets(w: &[u32], set: usize) -> Option<Survey>
    requires { is_header w.now ≡ true }
    ensures { result ≡ found_of (read_pool w.now) set }
{
    let sets = w[SETS] as usize;
    let n = w[NODES];
    let b = HEAD + RECORD * sets;
    let mut i: u32 = 1;
    let mut claimed: u32 = 0;
    let mut at: u32 = 0;
    let mut held: u32 = 0;
    for s in 0..sets {
        let end = set_end(w, b, n, s, i);
        if end == 0 {
            return None;
        }
        if !is_right(w, b, n, s, i, end) {
            return None;
        }
        let nodes = end - i;
        let claim = claim_at(w, s, nodes);
        if n - claimed < claim {
            return None;
        }
        claimed += claim;
        at = picked(s, set, i, at);
        held = picked(s, set, nodes, held);
        i = end;
    }
    let found = Survey {
        used: i - 1,
        claimed,
        at,
        held,
    };
    Some(found)
}
