// Networks as text, of either family: a line is read to a network, its family told by the line, and a network is written as a line of its family. Both take
// the network in: its bits past the length are cleared, and the answer says whether one was set.
ghost use Rattle.std.specs.Prelude.{◌≡◌, ◌≤◌, length};
ghost use Rattle.nets.specs.Networks.{taken_as, entered_as};
ghost use Rattle.text_decimal.specs.Places.{Stored};
ghost use Rattle.text_either.specs.Either.{read_either, entered_either, either_as, WroteEither};

use nets::{IPV4, Net, Refusal};
use text::ipv4;
use text_ipv6_read::ipv6;
use text_ipv6_write::ipv6 as written6;

pub mod first;

// The network of a line, with its address as the line has it.
fn read(line: &[u8]) -> Result<Net, Refusal>
    ensures { taken_as result ≡ read_either line.now }
{
    match ipv4::read(line) {
        Ok(n) => Ok(n),
        Err(_) => ipv6::read(line),
    }
}

// The network of a line, taken in.
pub fn read_line(line: &[u8]) -> Result<(Net, bool), Refusal>
    ensures { entered_as result ≡ entered_either line.now }
{
    let n = read(line)?;
    n.to_network()
}

// How many bytes the line of the numbers has, as they stand.
fn length(net: Net) -> usize
    ensures { result ≡ length (either_as net) }
{
    if net.family == IPV4 {
        return ipv4::length(net);
    }
    written6::length(net)
}

// Writes the line of the numbers from the first byte on, and gives the place behind it.
fn write(net: Net, out: &mut [u8]) -> usize
    requires { length (either_as net) ≤ length out.old }
    ensures { Stored out.old 0 (either_as net) out.new result }
{
    if net.family == IPV4 {
        return ipv4::write(net, out);
    }
    written6::write(net, out)
}

// Writes the line of a network from the buffer's first byte on, and says how many bytes that took.
pub fn write_line(net: Net, out: &mut [u8]) -> Result<(u32, bool), Refusal>
    ensures { WroteEither net out.old out.new result }
{
    let (n, trimmed) = net.to_network()?;
    if out.len() < length(n) {
        return Err(Refusal::ShortBuffer);
    }
    Ok((write(n, out) as u32, trimmed))
}
