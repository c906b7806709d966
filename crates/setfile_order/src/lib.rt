// Reading the networks of a set file in address order.
ghost use Rattle.std.specs.Prelude.{◌≡◌};
ghost use Rattle.setfile_format.specs.Files.{networks_in, read_file};
ghost use Rattle.address_order.specs.Streams.{in_address_order};
ghost use Rattle.setfile_order.specs.Flow.{checked_as, check_rule, surveyed};
ghost use Rattle.setfile_lanes.specs.Lanes.{Ordered};

use nets::Net;
use setfile_entries::reading;
use setfile_lanes::lanes::CURSORS;

pub mod flowing;
mod heads;

// The next network, and one more than the leading bits that it shares with the one before it; 0 where there is none.
#[derive(Clone, Copy)]
pub struct Head {
    pub deep: usize,
    pub net: Net,
}

// The nodes of the networks, unless one lies inside another: in address order it then lies inside the one before it.
fn survey(bytes: &[u8], family: u8, n: usize) -> Option<(u8, u32)>
    requires { Ordered bytes.now family n }
    ensures { checked_as result ≡ surveyed family (in_address_order (networks_in family bytes.now 0 n)) }
{
    if n == 0 {
        return Some((family, 0));
    }
    let mut cursors = [0u64; CURSORS];
    let mut h = heads::begin(bytes, family, n, &mut cursors);
    let mut nodes = h.net.len as u32 + 1;
    // the two parts of `advance`: called as one it may not be compiled into the loop, and would pass the head through memory
    for k in 1..n {
        let whole = h.net.len as usize + 1;
        heads::move_on(bytes, family, &mut cursors);
        h = heads::head(family, &cursors, h.net);
        if h.deep == whole {
            return None;
        }
        nodes += (h.net.len as usize + 1 - h.deep) as u32;
    }
    Some((family, nodes))
}

// Whether the bytes are a set file: its family, and the nodes of its list.
pub fn check(bytes: &[u8]) -> Option<(u8, u32)>
    ensures { checked_as result ≡ check_rule (read_file bytes.now) }
{
    if !reading::is_header(bytes) {
        return None;
    }
    let family = reading::number(bytes, 0) as u8;
    let n = reading::number(bytes, 1) as usize;
    if !reading::in_order(bytes, family, n) {
        return None;
    }
    survey(bytes, family, n)
}
