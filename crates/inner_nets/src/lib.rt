// The inner networks, one by one, and whether a network keeps clear of all of its family.
#![tactic(auto)]

ghost use Rattle.std.specs.Prelude.{◌≡◌, ◌&&◌, [], ◌∷◌, eqb};
ghost use Rattle.nets.specs.Networks.{net_bits, refusal_of};
ghost use Rattle.inner_nets.specs.Inner.{inner_nets, is_public};

use nets::{IPV4, Net};
use tables::{INNER4, INNER6};

mod tables;
pub mod walks;

// The inner networks of a family. Any number but 4 is taken as 6, as the width is.
pub fn inner_nets(family: u32) -> &'static [Net]
    ensures { result.now ≡ inner_nets family }
{
    if family == IPV4 as u32 {
        &INNER4
    } else {
        &INNER6
    }
}

// The network of these numbers, the bits past its length not counted, overlaps no inner network of its family. Numbers that are no network are not public.
pub fn is_public_net(net: Net) -> bool
    ensures { result ≡ (eqb (refusal_of net) 0 && is_public net.family (net_bits net ∷ [])) }
{
    match net.prefix_bits() {
        Ok(s) => walks::is_clear(s, net.family as u32),
        Err(_) => false,
    }
}
