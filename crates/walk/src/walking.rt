// A walk that was made, and its steps. Each asks in its contract that it was: then a trie stands where it is to read one.
ghost use Rattle.std.specs.Prelude.{◌≡◌};
ghost use Rattle.walk.specs.Walks.{Walking, walk_on};

use listing::seated::go_on;
use trie_spots::spots::Spot;

// The pool, how far the walk has come, the set, and the number of the table: 0, or 2 or 3 where there is nothing to walk through. While `spot.more` says so it is at the network `spot.net`.
#[derive(Clone, Copy)]
pub struct Walk<'a> {
    pub pool: &'a [u32],
    pub spot: Spot,
    pub set: u32,
    pub no: u8,
}

impl<'a> Walk<'a> {
    // Goes on to the next network, and says whether there is one.
    pub fn next(&mut self) -> bool
        requires { Walking self.old }
        ensures { (result ≡ (walk_on self.old).spot.more) × (self.new ≡ walk_on self.old) }
    {
        let s = go_on(self.pool, self.spot);
        self.spot = s;
        s.more
    }
}
