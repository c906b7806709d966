// Networks in the order of addresses: which comes first, which lies inside, which ends before the other begins.
ghost use Rattle.std.specs.Prelude.{◌≡◌, ℕ};
ghost use Rattle.nets.specs.Bits.{leads};
ghost use Rattle.nets.specs.Networks.{net_bits};
ghost use Rattle.address_order.specs.Streams.{earlier};
ghost use Rattle.salvage_lists.specs.Ahead.{ahead, is_past, is_beyond};
ghost use Rattle.salvage_batch.specs.Buffers.{Clean, Ended, place_of};

use address_order::sharing::shared;
use nets::Net;

// The smaller address first, then the shorter length.
fn is_earlier(x: Net, y: Net) -> bool
    requires { (f : ℕ) × Clean f x × Clean f y }
    ensures { result ≡ earlier (net_bits x) (net_bits y) }
{
    (x.hi, x.lo, x.len) < (y.hi, y.lo, y.len)
}

// y lies inside x, or is x.
pub fn is_in(x: Net, y: Net) -> bool
    requires { (f : ℕ) × Clean f x × Clean f y }
    ensures { result ≡ leads (net_bits x) (net_bits y) }
{
    shared(x, y) == x.len
}

// x ends before y begins.
fn is_ahead(x: Net, y: Net) -> bool
    requires { (f : ℕ) × Clean f x × Clean f y }
    ensures { result ≡ ahead (net_bits x) (net_bits y) }
{
    if !is_earlier(x, y) {
        return false;
    }
    !is_in(x, y)
}

// x begins behind the edge, the end of a network, or there is none.
pub fn is_past(e: Option<Net>, x: Net) -> bool
    requires { (f : ℕ) × Clean f x × Ended f e }
    ensures { result ≡ is_past (place_of e) (net_bits x) }
{
    match e {
        None => true,
        Some(net) => is_ahead(net, x),
    }
}

// There is an edge, and x begins behind it.
pub fn is_beyond(e: Option<Net>, x: Net) -> bool
    requires { (f : ℕ) × Clean f x × Ended f e }
    ensures { result ≡ is_beyond (place_of e) (net_bits x) }
{
    match e {
        None => false,
        Some(net) => is_ahead(net, x),
    }
}
