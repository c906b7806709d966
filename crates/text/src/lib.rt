// Networks as text: a line is read to a network, and a network is written as a line. Both take the network in: its bits past the length are cleared, and the
// answer says whether one was set.
ghost use Rattle.std.specs.Prelude.{◌≡◌};
ghost use Rattle.nets.specs.Networks.{entered_as};
ghost use Rattle.text.specs.Answers.{entered_line, Wrote};

use nets::{Net, Refusal};

pub mod ipv4;

// The network of a line, taken in.
pub fn read_line(line: &[u8]) -> Result<(Net, bool), Refusal>
    ensures { entered_as result ≡ entered_line line.now }
{
    let n = ipv4::read(line)?;
    n.to_network()
}

// Writes the line of a network from the buffer's first byte on, and says how many bytes that took.
pub fn write_line(net: Net, out: &mut [u8]) -> Result<(u32, bool), Refusal>
    ensures { Wrote net out.old out.new result }
{
    if net.family != 4 {
        return Err(Refusal::WrongFamily);
    }
    let (n, trimmed) = net.to_network()?;
    if out.len() < ipv4::length(n) {
        return Err(Refusal::ShortBuffer);
    }
    Ok((ipv4::write(n, out) as u32, trimmed))
}
