// The leading bits that two networks have in common.
ghost use Rattle.std.specs.Prelude.{◌≡◌};
ghost use Rattle.std.specs.Int.Count.{count_leading_zeros};
ghost use Rattle.nets.specs.Networks.{value, net_bits, refusal_of};
ghost use Rattle.address_order.specs.Streams.{shared};

use nets::Net;
use nets::families::width;

// How many leading zeros the number of two words has.
fn zeros(hi: u64, lo: u64) -> u8
    ensures { result ≡ count_leading_zeros 128 (value hi lo) }
{
    if hi == 0 {
        return 64 + u64::leading_zeros(lo) as u8;
    }
    u64::leading_zeros(hi) as u8
}

// How many leading bits the networks share: their addresses differ first where the exclusive or of the two has its highest set bit.
pub fn shared(a: Net, b: Net) -> u8
    requires { (a.family ≡ b.family) × ((refusal_of a ≡ 0) × (refusal_of b ≡ 0)) }
    ensures { result ≡ shared (net_bits a) (net_bits b) }
{
    let same = zeros(a.hi ^ b.hi, a.lo ^ b.lo) - (128 - width(a.family));
    same.min(a.len.min(b.len))
}
