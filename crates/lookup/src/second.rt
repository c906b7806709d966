// The path of a query in the second form: from the root on, as no set is indexed there.
ghost use Rattle.std.specs.Prelude.{true, ◌≡◌, ◌<◌, get_or};
ghost use Rattle.nets.specs.Networks.{net_bits, refusal_of};
ghost use Rattle.pool_state.specs.Kept.{second};
ghost use Rattle.pool_state.specs.Decode.{is_header};
ghost use Rattle.lookup.specs.Rules.{shown_of, path_of};

use crate::beginning::grounds;
use kept_lookup::{Shown as KeptShown, kept_walk_from};
use nets::{Net, Refusal};
use trie_lookup::Shown;

// What a walk shows, with damage as a refusal.
fn shown(s: KeptShown) -> Shown
    ensures { result ≡ shown_of s }
{
    match s {
        KeptShown::Member(len, steps) => Shown::Member(len, steps),
        KeptShown::Nothing(steps) => Shown::Nothing(steps),
        KeptShown::Damaged => Shown::Refused(Refusal::Damaged),
    }
}

// What the path of a network shows in a set.
pub fn kept_path(w: &[u32], set: u32, net: Net) -> Shown
    requires { (is_header w.now ≡ true) × (set < get_or w.now 2 0) × (net.family ≡ get_or w.now 1 0) × (refusal_of net ≡ 0) }
    ensures { result ≡ path_of second w.now set (net_bits net) }
{
    let g = grounds(w, set);
    shown(kept_walk_from(w, net.family, g.b, g.n, g.root, net))
}
