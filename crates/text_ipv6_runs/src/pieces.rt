// The pieces of an address: a group of hexadecimal digits, and a quad of decimal numbers.
ghost use Rattle.std.specs.Prelude.{cond, ◌≡◌, ◌-◌, ◌≤◌, leb, drop};
ghost use Rattle.text_decimal.specs.Decimal.{nothing};
ghost use Rattle.text_decimal.specs.Places.{read_as};
ghost use Rattle.text_decimal.specs.Spans.{starts_of};
ghost use Rattle.text_hex.specs.Hex.{is_hex_digit};
ghost use Rattle.text_ipv6_runs.specs.Runs.{read_group, read_dotted, read_piece, goes_on};
ghost use Rattle.text_ipv6_runs.specs.Places.{piece_as};

use text::ipv4;
use text_decimal::cursor::Cursor;
use text_decimal::{cursor, decimal};

// A piece, and the place behind it.
#[derive(Clone, Copy, Debug, PartialEq, Eq)]
pub enum Found {
    Group(u16, usize),
    Quad(u32, usize),
}

// Whether a hexadecimal digit stands at the place.
fn digit_at(s: &[u8], at: usize) -> bool
    ensures { result ≡ starts_of is_hex_digit (drop at s.now) }
{
    match s.get(at) {
        Some(&b) => text_hex::is_digit(b),
        None => false,
    }
}

// The group at the place, as far as its digits go: at most four.
fn group(s: &[u8], start: usize) -> Option<(u32, Cursor)>
    ensures { read_as s.now result ≡ read_group (drop start s.now) }
{
    let mut at = start;
    let mut value: u32 = 0;
    while digit_at(s, at) {
        if at - start == 4 {
            return None;
        }
        value = value * 16 + text_hex::value(s[at]) as u32;
        at += 1;
    }
    if at == start {
        return None;
    }
    Some((value, Cursor { at }))
}

// The four numbers at the place, as one.
fn dotted(s: &[u8], start: usize) -> Option<(u32, Cursor)>
    ensures { read_as s.now result ≡ read_dotted (drop start s.now) }
{
    let a = ipv4::next(s, Some((0, Cursor { at: start })), b'.');
    let b = ipv4::next(s, a, b'.');
    let c = ipv4::next(s, b, b'.');
    let (high, last) = c?;
    let (low, behind) = decimal::number(s, last, 255)?;
    Some((high * 256 + low, behind))
}

// The four numbers, where there is room for two groups behind so many.
fn dotted_in(s: &[u8], start: usize, count: usize) -> Option<(u32, Cursor)>
    requires { count ≤ 8 }
    ensures { read_as s.now result ≡ cond (leb 2 (8 - count)) (read_dotted (drop start s.now)) nothing }
{
    if 6 < count {
        return None;
    }
    dotted(s, start)
}

// What stands at the place, behind so many groups.
pub fn piece(s: &[u8], start: usize, count: usize) -> Option<Found>
    requires { count ≤ 8 }
    ensures { piece_as s.now result ≡ read_piece (8 - count) (drop start s.now) }
{
    let q = dotted_in(s, start, count);
    if let Some((v, c)) = q {
        return Some(Found::Quad(v, c.at));
    }
    let (x, c) = group(s, start)?;
    Some(Found::Group(x as u16, c.at))
}

// Whether a colon and a group follow.
pub fn goes_on(s: &[u8], at: usize) -> bool
    ensures { result ≡ goes_on (drop at s.now) }
{
    cursor::byte_at(s, at, b':') && digit_at(s, at + 1)
}
