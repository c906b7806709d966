// Networks with no bits past their lengths, and their order in a list.
ghost use Rattle.std.specs.Prelude.{◌≡◌};
ghost use Rattle.nets.specs.Bits.{before};
ghost use Rattle.nets.specs.Networks.{net_bits};
ghost use Rattle.setfile_format.specs.Files.{is_clean};
ghost use Rattle.setfile_entries.specs.Entries.{Entry};

use nets::families::width;
use nets::{Net, has_bit_past};

// The length is within the width, and no bits stand past it.
pub fn is_clean(n: Net) -> bool
    ensures { result ≡ is_clean n }
{
    n.len <= width(n.family) && !has_bit_past(n)
}

// The network x comes before y in a list: the shorter first, then the smaller address.
pub fn is_before(x: Net, y: Net) -> bool
    requires { Entry x.family x × Entry x.family y }
    ensures { result ≡ before (net_bits x) (net_bits y) }
{
    (x.len, x.hi, x.lo) < (y.len, y.hi, y.lo)
}
