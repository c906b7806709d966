// Decimal numbers in and out.
ghost use Rattle.std.specs.Prelude.{◌≡◌, ◌+◌, ◌≤◌, length, drop};
ghost use Rattle.text_decimal.specs.Decimal.{read_number, digits_of};
ghost use Rattle.text_decimal.specs.Places.{read_as, Stored};

use crate::cursor;
use crate::cursor::Cursor;

// The number at the cursor, as far as its digits go: at most `most`, and 0 stands first only where it stands alone.
pub fn number(s: &[u8], c: Cursor, most: u8) -> Option<(u32, Cursor)>
    ensures { read_as s.now result ≡ read_number most (drop c.at s.now) }
{
    let start = c.at;
    if cursor::zero_leads(s, start) {
        return None;
    }
    let mut at = start;
    let mut value: u32 = 0;
    while cursor::digit_at(s, at) {
        value = value * 10 + (s[at] - b'0') as u32;
        if (most as u32) < value {
            return None;
        }
        at += 1;
    }
    if at == start {
        return None;
    }
    Some((value, Cursor { at }))
}

// How many digits the number has.
pub fn length(x: u8) -> usize
    ensures value { result ≡ length (digits_of x) }
    ensures upper_bound { result ≤ 3 }
{
    if 100 <= x {
        return 3;
    }
    if 10 <= x {
        return 2;
    }
    1
}

// Writes the number at the place, and gives the place behind it.
pub fn put(out: &mut [u8], at: usize, x: u8) -> usize
    requires { at + length (digits_of x) ≤ length out.old }
    ensures { Stored out.old at (digits_of x) out.new result }
{
    if x < 10 {
        out[at] = b'0' + x;
        return at + 1;
    }
    if x < 100 {
        out[at] = b'0' + x / 10;
        out[at + 1] = b'0' + x % 10;
        return at + 2;
    }
    out[at] = b'0' + x / 100;
    out[at + 1] = b'0' + x / 10 % 10;
    out[at + 2] = b'0' + x % 10;
    at + 3
}
