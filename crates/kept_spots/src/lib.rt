// How far one has come who goes through a set whose trie is in the second form: the spots are those of trie_spots, and so is what going on leads to.
ghost use Rattle.std.specs.Prelude.{◌≡◌};
ghost use Rattle.nets.specs.Tries.{Trie, list_of};
ghost use Rattle.trie_spots.specs.Spots.{gone_on};
ghost use Rattle.kept_spots.specs.Onward.{KeptStandsIn, KeptGoes};

use kept_next::next_after;
use trie_spots::spots::{Spot, arrive};

// At the next network, or behind the last.
pub fn go_on(pool: &[u32], s: Spot) -> Spot
    requires { KeptGoes pool.now s }
    ensures { (t : Trie) → KeptStandsIn pool.now s.seat t → result ≡ gone_on (list_of t) s }
{
    let seat = s.seat;
    let n = (seat.end - 1) as u32;
    let x = next_after(
        pool,
        seat.family,
        seat.base,
        n,
        seat.first,
        seat.end,
        s.begun.then_some(s.net),
    );
    arrive(s, x)
}
