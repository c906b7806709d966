// One group in hexadecimal digits, in lower case and without leading zeros.
ghost use Rattle.std.specs.Prelude.{[], ◌∷◌, ◌≡◌, ◌+◌, ◌≤◌, ◌<◌, length};
ghost use Rattle.text_decimal.specs.Places.{Stored};
ghost use Rattle.text_hex.specs.Hex.{hex_byte_of, hex_digits_of};

// The byte of a digit.
fn byte(d: u8) -> u8
    requires { d < 16 }
    ensures { result ≡ hex_byte_of d }
{
    if d < 10 {
        return b'0' + d;
    }
    b'a' + (d - 10)
}

// How many digits the group has.
pub fn length(x: u16) -> usize
    ensures value { result ≡ length (hex_digits_of x) }
    ensures upper_bound { result ≤ 4 }
{
    if x < 16 {
        return 1;
    }
    if x < 256 {
        return 2;
    }
    if x < 4096 {
        return 3;
    }
    4
}

// Writes one digit at the place, and gives the place behind it.
fn put_digit(out: &mut [u8], at: usize, d: u16) -> usize
    requires { (d < 16) × (at < length out.old) }
    ensures { Stored out.old at (hex_byte_of d ∷ []) out.new result }
{
    out[at] = byte(d as u8);
    at + 1
}

// Writes the group at the place, and gives the place behind it.
pub fn put(out: &mut [u8], at: usize, x: u16) -> usize
    requires { at + length (hex_digits_of x) ≤ length out.old }
    ensures { Stored out.old at (hex_digits_of x) out.new result }
{
    if x < 16 {
        return put_digit(out, at, x);
    }
    let next = put(out, at, x / 16);
    put_digit(out, next, x % 16)
}
