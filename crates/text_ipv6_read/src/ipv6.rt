// Lines of IPv6 networks: an address, a slash and the length.
ghost use Rattle.std.specs.Prelude.{◌≡◌};
ghost use Rattle.nets.specs.Networks.{taken_as};
ghost use Rattle.text_ipv6_read.specs.Reader.{read_line6};

use crate::outlines;
use nets::{Net, Refusal};
use text_decimal::cursor::{Cursor, byte_at};
use text_decimal::decimal;

// The network of a line, with its address as the line has it.
pub fn read(line: &[u8]) -> Result<Net, Refusal>
    ensures { taken_as result ≡ read_line6 line.now }
{
    let o = outlines::read(line);
    if !outlines::is_whole(o) {
        return Err(Refusal::BadText);
    }
    let at = o.at;
    if !byte_at(line, at, b'/') {
        return Err(Refusal::BadText);
    }
    let (len, end) = decimal::number(line, Cursor { at: at + 1 }, 128).ok_or(Refusal::BadText)?;
    if end.at < line.len() {
        return Err(Refusal::BadText);
    }
    Ok(outlines::network(o, len as u8))
}
