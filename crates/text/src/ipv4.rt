// Lines of IPv4 networks: four numbers joined by dots, a slash and the length.
ghost use Rattle.std.specs.Prelude.{◌≡◌, [], ◌∷◌, ◌++◌, ◌+◌, ◌*◌, ◌/◌, ◌%◌, ◌^◌, ◌≤◌, ◌<◌, length, drop};
ghost use Rattle.nets.specs.Networks.{taken_as};
ghost use Rattle.text.specs.Ipv4.{read_next, read_quad, read_line, octet_of, line_as};
ghost use Rattle.text_decimal.specs.Places.{read_as, value_of, Stored};

use nets::{Net, Refusal};
use text_decimal::cursor::Cursor;
use text_decimal::{cursor, decimal};

// What was read with one more of the four numbers behind it, and the byte that ends that number.
pub fn next(s: &[u8], read: Option<(u32, Cursor)>, end: u8) -> Option<(u32, Cursor)>
    requires { value_of read < 2 ^ 24 }
    ensures result_value { read_as s.now result ≡ read_next end (read_as s.now read) }
    ensures result_bound { value_of result ≤ value_of read * 256 + 255 }
{
    let (high, c) = read?;
    let (low, behind) = decimal::number(s, c, 255)?;
    let at = behind.at;
    if !cursor::byte_at(s, at, end) {
        return None;
    }
    Some((high * 256 + low, Cursor { at: at + 1 }))
}

// The address of the four numbers, the last of them ended by the slash.
fn quad(s: &[u8], start: Cursor) -> Option<(u32, Cursor)>
    ensures { read_as s.now result ≡ read_quad (drop start.at s.now) }
{
    let a = next(s, Some((0, start)), b'.');
    let b = next(s, a, b'.');
    let c = next(s, b, b'.');
    next(s, c, b'/')
}

// The network of a line, with its address as the line has it.
pub fn read(line: &[u8]) -> Result<Net, Refusal>
    ensures { taken_as result ≡ read_line line.now }
{
    let (address, next) = quad(line, Cursor { at: 0 }).ok_or(Refusal::BadText)?;
    let (len, end) = decimal::number(line, next, 32).ok_or(Refusal::BadText)?;
    if end.at < line.len() {
        return Err(Refusal::BadText);
    }
    Ok(Net {
        family: 4,
        hi: 0,
        lo: address as u64,
        len: len as u8,
    })
}

// Byte k of an address, from its lowest on.
fn octet(address: u64, k: u32) -> u8
    requires { k < 8 }
    ensures { result ≡ address / 2 ^ (8 * k) % 256 }
{
    ((address >> 8 * k) % 256) as u8
}

// How many digits that byte has.
fn digits(address: u64, k: u32) -> usize
    requires { k < 8 }
    ensures value { result ≡ length (octet_of address k) }
    ensures upper_bound { result ≤ 3 }
{
    decimal::length(octet(address, k))
}

// How many bytes the line of the numbers has, as they stand.
pub fn length(net: Net) -> usize
    ensures { result ≡ length (line_as net) }
{
    let a = net.lo;
    let address = digits(a, 3) + digits(a, 2) + digits(a, 1) + digits(a, 0);
    address + decimal::length(net.len) + 4
}

// Writes that byte at the place with the byte that ends it, and gives the place behind both.
fn put(out: &mut [u8], at: usize, address: u64, k: u32, end: u8) -> usize
    requires { (k < 8) × (at + length (octet_of address k) < length out.old) }
    ensures { Stored out.old at (octet_of address k ++ (end ∷ [])) out.new result }
{
    let next = decimal::put(out, at, octet(address, k));
    out[next] = end;
    next + 1
}

// Writes the line of the numbers from the first byte on, and gives the place behind it.
pub fn write(net: Net, out: &mut [u8]) -> usize
    requires { length (line_as net) ≤ length out.old }
    ensures { Stored out.old 0 (line_as net) out.new result }
{
    let address = net.lo;
    let a = put(out, 0, address, 3, b'.');
    let b = put(out, a, address, 2, b'.');
    let c = put(out, b, address, 1, b'.');
    let d = put(out, c, address, 0, b'/');
    decimal::put(out, d, net.len)
}
