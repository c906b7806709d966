// Networks on standard output.
ghost use Rattle.std.specs.Prelude.{◌*◌, ◌≤◌, length};

use nets::Net;
use std::io;
use std::io::ErrorKind;

// What cannot come of a set's own networks.
fn no_network() -> io::Error {
    io::Error::new(ErrorKind::InvalidData, "a network that has no line")
}

// One network, by way of a lent line.
fn network(out: &impl Print, net: Net, line: &mut [u8]) -> io::Result<()> {
    let written = text_either::write_line(net, line);
    let Ok((k, _)) = written else {
        return Err(no_network());
    };
    let n = k as usize;
    out.write_all(&line[..n])?;
    out.write_all(b"\n")
}

// The network of three numbers. No line that is written has more than 43 bytes.
fn row(out: &impl Print, family: u8, hi: u64, lo: u64, len: u64) -> io::Result<()> {
    let mut line = [0u8; 43];
    let net = Net {
        family,
        hi,
        lo,
        len: (len % 256) as u8,
    };
    network(out, net, &mut line)
}

// The networks of so many rows, up to the first that cannot be written.
fn networks(out: &impl Print, family: u8, rows: &[u64], count: usize) -> io::Result<()>
    requires { 3 * count ≤ length rows.now }
{
    for net in rows[..3 * count].chunks_exact(3) {
        row(out, family, net[0], net[1], net[2])?;
    }
    Ok(())
}

// The networks of a set of a pool of the family in the order of its list, a line each, by way of lent rows, up to the first that cannot be written.
pub fn print_set(
    out: &impl Print,
    pool: &[u32],
    family: u8,
    set: u32,
    rows: &mut [u64],
) -> io::Result<()> {
    let listed = listing::list(pool, set, rows);
    let Ok(n) = listed else {
        return Err(no_network());
    };
    networks(out, family, rows, n as usize)
}
