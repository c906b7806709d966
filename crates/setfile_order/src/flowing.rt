// The networks of a file one by one, in address order.
ghost use Rattle.std.specs.Prelude.{◌≡◌, List, [], ◌∷◌};
ghost use Rattle.nets.specs.Bits.{Bits};
ghost use Rattle.nets.specs.Networks.{net_from};
ghost use Rattle.nets.specs.Tries.{trie_of};
ghost use Rattle.setfile_format.specs.Files.{read_file, file};
ghost use Rattle.address_order.specs.Streams.{flat};
ghost use Rattle.setfile_order.specs.Flow.{head_as, Flow};

use crate::{Head, heads};
use setfile_entries::reading;
use setfile_lanes::lanes::CURSORS;

// Puts the cursors before the first networks, and gives the head.
pub fn open(bytes: &[u8], family: u8, cursors: &mut [u64; CURSORS]) -> Head
    requires { (l : List Bits) × (read_file bytes.now ≡ file family l) }
    ensures { (l : List Bits) → read_file bytes.now ≡ file family l
        → Flow bytes.now family cursors.new (flat (trie_of l)) × (result ≡ head_as family [] (flat (trie_of l))) }
{
    let n = reading::number(bytes, 1) as usize;
    heads::begin(bytes, family, n, cursors)
}

// Behind the head.
pub fn advance(bytes: &[u8], family: u8, cursors: &mut [u64; CURSORS], h: Head) -> Head
    requires { (q : Bits) × (ms : List Bits) × Flow bytes.now family cursors.old (q ∷ ms) × (h.net ≡ net_from family q) }
    ensures { (q : Bits) (ms : List Bits) → Flow bytes.now family cursors.old (q ∷ ms) → h.net ≡ net_from family q
        → Flow bytes.now family cursors.new ms × (result ≡ head_as family q ms) }
{
    heads::move_on(bytes, family, cursors);
    heads::head(family, cursors, h.net)
}
