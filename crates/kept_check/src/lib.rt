// The check of a trie in the second form, in one pass: the number after it, or 0.
ghost use Rattle.std.specs.Prelude.{◌≡◌, true, cond, [], suc, ◌+◌, ◌-◌, ◌≤◌, ◌<◌, eqb};
ghost use Rattle.nets.specs.Networks.{width};
ghost use Rattle.kept_nodes.specs.Parse.{KeptRoom, dist_at, fits, kept_parse, kept_after};
ghost use Rattle.kept_check.specs.Turns.{below, Above};

use kept_reading::reading::{distance, is_node, net_at};
use kept_reading::strings::extends;

// Node i is one, and its string begins with that of node up and one bit more; with nothing, where up is 0.
fn node_fits(w: &[u32], family: u8, b: usize, n: u32, up: u32, bit: bool, i: u32) -> bool
    requires { KeptRoom family w.now b n × ((1 ≤ i) × Above family w.now b n up) }
    ensures { result ≡ fits family w.now b n (below family w.now b up bit) i }
{
    if n < i {
        return false;
    }
    if !is_node(w, family, b, n, i) {
        return false;
    }
    if up == 0 {
        return true;
    }
    extends(net_at(w, family, b, n, up), bit, net_at(w, family, b, n, i))
}

// The stack pointer after a node: one down after a member, one up after a branch point.
fn stepped(sp: usize, d: u32) -> usize
    requires { (1 ≤ sp) × (sp < 130) }
    ensures { result ≡ cond (eqb d 0) (sp - 1) (sp + 1) }
{
    if d == 0 {
        return sp - 1;
    }
    sp + 1
}

// Where on the stack the node stands whose child is next.
fn parent(sp: usize, d: u32) -> usize
    requires { 1 ≤ sp }
    ensures { result ≡ cond (eqb d 0) sp (sp - 1) }
{
    if d == 0 {
        return sp;
    }
    sp - 1
}

// After a member, the first child of node up is node i.
fn follows(w: &[u32], family: u8, b: usize, n: u32, up: u32, d: u32, i: u32) -> bool
    requires { KeptRoom family w.now b n × ((1 ≤ up) × (up ≤ n)) }
    ensures { result ≡ cond (eqb d 0) (eqb (up + dist_at family w.now b up) i) true }
{
    if d != 0 {
        return true;
    }
    up + distance(w, family, b, n, up) == i
}

// The number after the trie that starts at node root, within n nodes, or 0 where there is none. The branch points whose first children are still to come are on a
// stack, the entries from 1 to below sp. Every node is stored at sp, where it counts only if sp moves up.
pub fn kept_end(w: &[u32], family: u8, b: usize, n: u32, root: u32) -> u32
    requires { KeptRoom family w.now b n × (1 ≤ root) }
    ensures { result ≡ kept_after root (kept_parse family w.now b n (suc (width family)) [] root) }
{
    let mut ats = [0u32; 131];
    let mut sp: usize = 1;
    let mut i = root;
    let mut up: u32 = 0;
    let mut bit = false;
    loop {
        if !node_fits(w, family, b, n, up, bit, i) {
            return 0;
        }
        let d = distance(w, family, b, n, i);
        ats[sp] = i;
        i += 1;
        sp = stepped(sp, d);
        if sp == 0 {
            return i;
        }
        let p = parent(sp, d);
        up = ats[p];
        if !follows(w, family, b, n, up, d, i) {
            return 0;
        }
        bit = d != 0;
    }
}
