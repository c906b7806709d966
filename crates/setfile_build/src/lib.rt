// Writing the trie of the networks that a set file gives in address order. Each function asks in its contract what makes it safe: the calls without such a wish stand in the crates above.
ghost use Rattle.std.specs.Prelude.{◌≡◌, List};
ghost use Rattle.nets.specs.Bits.{Bits};
ghost use Rattle.nets.specs.Tries.{trie_of};
ghost use Rattle.nodes.specs.Words.{put, place, enc};
ghost use Rattle.setfile_build.specs.Building.{Fillable};

use setfile_lanes::lanes::CURSORS;
use setfile_order::flowing::open;
use writing::grow;

pub mod bits;
mod writing;

// Writes the trie of the file's list from node o on.
pub fn build(w: &mut [u32], b: usize, o: usize, bytes: &[u8], family: u8)
    requires { (l : List Bits) × Fillable w.old b o bytes.now family l }
    ensures { (l : List Bits) → Fillable w.old b o bytes.now family l → w.new ≡ put w.old (place b o) (enc (trie_of l)) }
{
    let mut cursors = [0u64; CURSORS];
    let head = open(bytes, family, &mut cursors);
    if head.deep == 0 {
        return;
    }
    grow(w, b, o, head, bytes, family, &mut cursors);
}
