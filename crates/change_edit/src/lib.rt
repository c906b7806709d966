// A network into the list of a set, or out of it, in the form of the pool: the nodes of the result, and its words with those of the sets behind it.
ghost use Rattle.std.specs.Prelude.{◌≡◌, ℕ, get_or};
ghost use Rattle.nets.specs.Networks.{refusal_of, cleared};
ghost use Rattle.change_ask.specs.Steps.{Ready};
ghost use Rattle.change_edit.specs.Steps.{Counts, Edits, Edited};

use kept_change::{change, change_size};
use nets::{Net, PrefixBits};
use pool_check::seats::seat_in;
use pool_header::{FORM, NODES};
use pool_state::Survey;
use trie_paths::halves::whole;

// The network with the bits past its length cleared.
fn cut(net: Net) -> Net
    requires { refusal_of net ≡ 0 }
    ensures { result ≡ cleared net }
{
    let entered = net.to_network();
    match entered {
        Ok((n, _)) => n,
        Err(_) => net,
    }
}

// The nodes of the surveyed set once the network with the bits of s is in it, or out of it, in the first form.
fn first_size(pool: &[u32], v: Survey, s: PrefixBits, into: bool) -> u32
    requires { (get_or pool.now 5 0 ≡ 0) × ((k : ℕ) × (n : Net) × Ready pool.now k n v s) }
    ensures { (k : ℕ) (n : Net) → Ready pool.now k n v s → Counts pool.now k into n result }
{
    let at = seat_in(pool, v);
    if into {
        return trie_insert::insert_size(pool, at.base, at.first, at.end, s) as u32;
    }
    trie_remove::remove_size(pool, at.base, at.first, at.end, s) as u32
}

// The same in the second form.
fn second_size(pool: &[u32], v: Survey, net: Net, into: bool) -> u32
    requires { (get_or pool.now 5 0 ≡ 0 → ⊥) × ((k : ℕ) × (s : PrefixBits) × Ready pool.now k net v s) }
    ensures { (k : ℕ) (s : PrefixBits) → Ready pool.now k net v s → Counts pool.now k into net result }
{
    let at = seat_in(pool, v);
    let q = cut(net);
    change_size(
        pool,
        at.family,
        at.base,
        pool[NODES],
        at.first,
        at.end,
        0,
        q,
        into,
    ) as u32
}

// The nodes of the surveyed set once the network is in it, or out of it.
pub fn size_with(pool: &[u32], v: Survey, s: PrefixBits, net: Net, into: bool) -> u32
    requires { (k : ℕ) × Ready pool.now k net v s }
    ensures { (k : ℕ) → Ready pool.now k net v s → Counts pool.now k into net result }
{
    if pool[FORM] == 0 {
        return first_size(pool, v, s, into);
    }
    second_size(pool, v, net, into)
}

// Writes the surveyed set with the network in it, or out of it, and the sets behind it, in the first form.
fn first_edit(pool: &mut [u32], v: Survey, s: PrefixBits, into: bool)
    requires { (get_or pool.old 5 0 ≡ 0) × ((k : ℕ) × (n : Net) × Edits pool.old k into n v s) }
    ensures { (k : ℕ) (n : Net) → Edits pool.old k into n v s → Edited pool.old k into n v pool.new }
{
    let at = seat_in(pool, v);
    let used = v.used as usize + 1;
    if into {
        trie_insert::insert(pool, at.base, at.first, at.end, used, s);
        return;
    }
    trie_remove::remove(pool, at.base, at.first, at.first, at.end, used, s);
}

// The same in the second form.
fn second_edit(pool: &mut [u32], v: Survey, net: Net, into: bool)
    requires { (get_or pool.old 5 0 ≡ 0 → ⊥) × ((k : ℕ) × (s : PrefixBits) × Edits pool.old k into net v s) }
    ensures { (k : ℕ) (s : PrefixBits) → Edits pool.old k into net v s → Edited pool.old k into net v pool.new }
{
    let at = seat_in(pool, v);
    let q = cut(net);
    let used = v.used as usize + 1;
    let nodes = pool[NODES];
    let root = whole(at.family);
    change(
        pool, at.family, at.base, nodes, at.first, at.end, used, root, q, into,
    );
}

// Writes the surveyed set with the network in it, or out of it, and the sets behind it.
pub fn edit(pool: &mut [u32], v: Survey, s: PrefixBits, net: Net, into: bool)
    requires { (k : ℕ) × Edits pool.old k into net v s }
    ensures { (k : ℕ) → Edits pool.old k into net v s → Edited pool.old k into net v pool.new }
{
    if pool[FORM] == 0 {
        first_edit(pool, v, s, into);
        return;
    }
    second_edit(pool, v, net, into);
}
