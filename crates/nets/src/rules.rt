// Which numbers are a network, and the refusal of those that are none.
ghost use Rattle.std.specs.Prelude.{◌≡◌};
ghost use Rattle.nets.specs.Refusals.{answered};
ghost use Rattle.nets.specs.Networks.{in_range, refusal_of, no_net, taken_as, judged, cleared};

use crate::families::is_family;
use crate::words::clear;
use crate::{IPV4, Net, Refusal};

// Whether length and address are within the family's range.
fn in_range(n: Net) -> bool
    ensures { result ≡ in_range n }
{
    if n.family == IPV4 {
        return n.len <= 32 && (n.hi == 0 && n.lo < 0x1_0000_0000);
    }
    n.len <= 128
}

// The network, or the refusal of its numbers.
pub fn accept(n: Net) -> Result<Net, Refusal>
    ensures { taken_as result ≡ judged n }
{
    if !is_family(n.family as u32) {
        return Err(Refusal::WrongFamily);
    }
    if !in_range(n) {
        return Err(Refusal::BadNetwork);
    }
    Ok(n)
}

// The network with the bits past its length cleared, or the refusal of its numbers.
pub fn cut(n: Net) -> Result<Net, Refusal>
    ensures { taken_as result ≡ answered (refusal_of n) no_net (cleared n) }
{
    let n = accept(n)?;
    Ok(clear(n))
}
