// After the nodes of one set changed: moving the words of the sets behind it, putting the roots and its index right, and the answer.
ghost use Rattle.std.specs.Prelude.{◌≡◌, ◌+◌};
ghost use Rattle.nodes.specs.Words.{put};
ghost use Rattle.pool_state.specs.Rules.{answer_as};
ghost use Rattle.pool_state.specs.Steps.{spot_by, behind_at, Shiftable, own_root, moved_root, relinked, Movable, Relink, Indexable, Settle, Reindexed, Settled};

use nets::Refusal;
use nodes::writing::shift;
use pool_header::{HEAD, NODES, RECORD, SETS, TAG};
use pool_state::Survey;
use trie_index::{INDEX, write_index};

// Moves the words of the sets behind a set to where they stand once the set has n nodes, of s words each.
pub fn shift_behind(w: &mut [u32], b: usize, s: usize, v: Survey, n: u32)
    requires { Shiftable s w.old b v n }
    ensures { w.new ≡ put w.old (spot_by s b (v.at + n)) (behind_at s w.old b v) }
{
    let at = v.at as usize;
    let end = at + v.held as usize;
    let to = at + n as usize;
    shift(
        w,
        b + s * (end - 1),
        b + s * (to - 1),
        s * (v.used as usize + 1 - end),
    );
}

// After a set, which begins at a node, went from old nodes to new ones: its root, and a root behind it.
fn own_root(at: u32, new: u32) -> u32
    ensures { result ≡ own_root at new }
{
    if new == 0 {
        return 0;
    }
    at
}

fn moved_root(old: u32, new: u32, r: u32) -> u32
    requires { Movable old new r }
    ensures { result ≡ moved_root old new r }
{
    if r == 0 {
        return 0;
    }
    r + new - old
}

// Puts the roots right after a set, which begins at node `at`, went from old nodes to new ones.
fn relink(w: &mut [u32], set: u32, at: u32, old: u32, new: u32)
    requires { Relink w.old set old new }
    ensures { w.new ≡ relinked w.old set at old new }
{
    let sets = w[SETS] as usize;
    let k = set as usize;
    w[HEAD + RECORD * k] = own_root(at, new);
    for s in k + 1..sets {
        w[HEAD + RECORD * s] = moved_root(old, new, w[HEAD + RECORD * s]);
    }
}

// Puts the index of a set right, where it has one: it has n nodes now, from node `at` on. Its words are relative to the root, so those of the sets behind it stay.
fn reindex(w: &mut [u32], set: u32, at: u32, n: u32)
    requires { Indexable w.old set at n }
    ensures { Reindexed w.old set at n w.new }
{
    let tag = w[HEAD + RECORD * (set as usize) + TAG];
    if tag == 0 {
        return;
    }
    let b = HEAD + RECORD * (w[SETS] as usize);
    let nodes = w[NODES];
    let p = b + 8 * (nodes as usize) + INDEX * (tag as usize - 1);
    write_index(w, b, nodes, own_root(at, n), p);
}

// Puts the roots and the index right once the nodes of the result, n of them, are written; answers n.
pub fn granted(w: &mut [u32], set: u32, v: Survey, n: u32) -> Result<u32, Refusal>
    requires { Settle w.old set v.at v.held n }
    ensures { (answer_as result ≡ (0, n)) × Settled w.old set v.at v.held n w.new }
{
    relink(w, set, v.at, v.held, n);
    reindex(w, set, v.at, n);
    Ok(n)
}
