// Pouring the networks of a file into what stands in a seat of a pool, or out of it, by the form that the pool is kept in.
ghost use Rattle.std.specs.Prelude.{◌≡◌, List};
ghost use Rattle.nets.specs.Bits.{Bits};
ghost use Rattle.nets.specs.Tries.{Trie};
ghost use Rattle.nodes.specs.Words.{put};
ghost use Rattle.pool_state.specs.Kept.{held_l, enc_l, spot_l};
ghost use Rattle.pool_state.specs.Decode.{form_in};
ghost use Rattle.change_many.specs.Steps.{SourcesIn, PoursIn, poured_of};

use listing::seated::is_first;
use nodes::seats::Seat;

// The nodes that the result takes. Nothing is written.
pub fn poured_nodes(pool: &[u32], s: Seat, bytes: &[u8], family: u8, into: bool) -> usize
    requires { (l : List Bits) × (t : Trie) × SourcesIn pool.now s bytes.now family l t }
    ensures { (l : List Bits) (t : Trie) → SourcesIn pool.now s bytes.now family l t
        → result ≡ held_l (form_in pool.now) (poured_of into l t) }
{
    if is_first(pool) {
        return setfile_pour::poured_size(pool, s.base, s.first, s.end, bytes, family, into);
    }
    kept_pour::poured_size(pool, family, s.base, pool[3], s.first, s.end, bytes, into)
}

// Writes the result where the trie stands; it ends before node `end`.
pub fn pour_seated(pool: &mut [u32], s: Seat, end: usize, bytes: &[u8], family: u8, into: bool)
    requires { (l : List Bits) × (t : Trie) × PoursIn pool.old s end bytes.now family into l t }
    ensures { (l : List Bits) (t : Trie) → PoursIn pool.old s end bytes.now family into l t
        → pool.new ≡ put pool.old (spot_l (form_in pool.old) family s.base s.first) (enc_l (form_in pool.old) family (poured_of into l t)) }
{
    if is_first(pool) {
        setfile_pour::pour(pool, s.base, s.first, s.end, end, bytes, family, into);
        return;
    }
    let nodes = pool[3];
    kept_pour::pour(
        pool, family, s.base, nodes, s.first, s.end, end, bytes, into,
    );
}
