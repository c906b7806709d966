// The families of addresses, as the crates above ask for them.
ghost use Rattle.std.specs.Prelude.{◌≡◌};
ghost use Rattle.nets.specs.Networks.{is_family, width};

use crate::{IPV4, IPV6};

// The families are 4 and 6.
pub fn is_family(family: u32) -> bool
    ensures { result ≡ is_family family }
{
    family == IPV4 as u32 || family == IPV6 as u32
}

// How many bits an address of the family has: 32 in family 4, 128 in any other.
pub fn width(family: u8) -> u8
    ensures { result ≡ width family }
{
    if family == IPV4 { 32 } else { 128 }
}
