// Every call exported by itself, for programs in other languages: numbers and slices in, one number out. The header of the archive is include/marlbrace.h. The number has the
// value in its low 32 bits, then the number of the refusal, 0 where the call is granted, then a bit for yes and one for the report of a cut bit.
#![tactic(auto)]

ghost use Rattle.std.specs.Prelude.{◌≡◌};
ghost use Rattle.nets.specs.Networks.{net_words};

use nets::Net;

pub mod changing;
pub mod files;
pub mod looking;
pub mod reporting;
pub mod texts;
pub mod walking;

// The network of four numbers, as they are given.
fn net(family: u8, hi: u64, lo: u64, len: u8) -> Net
    ensures { result ≡ net_words family hi lo len }
{
    Net {
        family,
        hi,
        lo,
        len,
    }
}
