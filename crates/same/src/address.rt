// An address on standard output, in the text of its family: the line of the network of that address alone, up to its slash.
use nets::{IPV4, Net};
use std::io;
use std::io::ErrorKind;

// More bytes than any line has.
const LINE: usize = 64;

// What follows the address in the line: the slash and 32, or the slash and 128.
fn behind(family: u8) -> usize {
    if family == IPV4 { 3 } else { 4 }
}

// What cannot come of a file that was read.
fn no_address() -> io::Error {
    io::Error::new(ErrorKind::InvalidData, "an address that has no line")
}

// The first bytes of a line, without those behind the address.
fn print_first(out: &impl Print, line: &[u8], n: usize, cut: usize) -> io::Result<()> {
    if n < cut {
        return Err(no_address());
    }
    let end = n - cut;
    if line.len() < end {
        return Err(no_address());
    }
    out.write_all(&line[..end])
}

// The address of a network.
pub fn print(out: &impl Print, net: Net) -> io::Result<()> {
    let mut line = [0u8; LINE];
    let written = text_either::write_line(net, &mut line);
    match written {
        Ok((n, _)) => print_first(out, &line, n as usize, behind(net.family)),
        Err(_) => Err(no_address()),
    }
}
