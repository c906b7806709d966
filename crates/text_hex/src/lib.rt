// Hexadecimal digits as bytes; group writes a number of four digits at most.
ghost use Rattle.std.specs.Prelude.{◌≡◌, ◌<◌};
ghost use Rattle.text_hex.specs.Hex.{is_hex_digit, hex_value};

pub mod group;

// Whether the byte is a digit, in either case.
pub fn is_digit(b: u8) -> bool
    ensures { result ≡ is_hex_digit b }
{
    b.is_ascii_hexdigit()
}

// The value of a digit in either case, and 0 for any other byte.
pub fn value(b: u8) -> u8
    ensures value { result ≡ hex_value b }
    ensures upper_bound { result < 16 }
{
    match b {
        b'0'..=b'9' => b - b'0',
        b'a'..=b'f' => b - b'a' + 10,
        b'A'..=b'F' => b - b'A' + 10,
        _ => 0,
    }
}
