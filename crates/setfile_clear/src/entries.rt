// The entries of a file one by one, in the order of the file.
ghost use Rattle.std.specs.Prelude.{◌≡◌, List};
ghost use Rattle.nets.specs.Bits.{Bits};
ghost use Rattle.inner_nets.specs.Inner.{is_public};
ghost use Rattle.setfile_format.specs.Files.{read_file, file};

use inner_nets::is_public_net;
use setfile_entries::reading::{entry, number};

// No network of the file overlaps an inner one.
pub fn file_is_clear(bytes: &[u8], family: u8) -> bool
    requires { (l : List Bits) × (read_file bytes.now ≡ file family l) }
    ensures { (l : List Bits) → read_file bytes.now ≡ file family l → result ≡ is_public family l }
{
    let n = number(bytes, 1) as usize;
    for i in 0..n {
        let net = entry(bytes, family, i);
        if !is_public_net(net) {
            return false;
        }
    }
    true
}
