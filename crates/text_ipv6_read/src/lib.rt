// Lines of IPv6 networks, read: the network is taken in, its bits past the length are cleared, and the answer says whether one was set.
ghost use Rattle.std.specs.Prelude.{◌≡◌};
ghost use Rattle.nets.specs.Networks.{entered_as};
ghost use Rattle.text_ipv6_read.specs.Reader.{entered_line6};

use nets::{Net, Refusal};

pub mod ipv6;
mod outlines;

// The network of a line, taken in.
pub fn read_line(line: &[u8]) -> Result<(Net, bool), Refusal>
    ensures { entered_as result ≡ entered_line6 line.now }
{
    let n = ipv6::read(line)?;
    n.to_network()
}
