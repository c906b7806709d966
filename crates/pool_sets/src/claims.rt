// What a set claims of its pool.
ghost use Rattle.std.specs.Prelude.{◌≡◌, ◌+◌, ◌≤◌, ◌<◌, max, length};
ghost use Rattle.pool_state.specs.Decode.{base};
ghost use Rattle.pool_state.specs.Rules.{share_in};

use pool_header::{HEAD, RECORD, SHARE};

// What set s claims of the pool: the larger of its share and its nodes.
pub fn claim_at(w: &[u32], s: usize, nodes: u32) -> u32
    requires { (s < 64) × (base (s + 1) ≤ length w.now) }
    ensures { result ≡ max (share_in w.now s) nodes }
{
    w[HEAD + RECORD * s + SHARE].max(nodes)
}
