// Places in a line, and what stands there.
ghost use Rattle.std.specs.Prelude.{◌≡◌, drop};
ghost use Rattle.text_decimal.specs.Places.{starts_digit, starts_byte, starts_zero};

#[derive(Clone, Copy)]
pub struct Cursor {
    pub at: usize,
}

// Whether a digit stands at the place.
pub fn digit_at(s: &[u8], at: usize) -> bool
    ensures { result ≡ starts_digit (drop at s.now) }
{
    match s.get(at) {
        Some(b) => b.is_ascii_digit(),
        None => false,
    }
}

// Whether the byte stands at the place.
pub fn byte_at(s: &[u8], at: usize, b: u8) -> bool
    ensures { result ≡ starts_byte b (drop at s.now) }
{
    s.get(at) == Some(&b)
}

// Whether a 0 stands at the place, and a digit behind it.
pub fn zero_leads(s: &[u8], at: usize) -> bool
    ensures { result ≡ starts_zero (drop at s.now) }
{
    byte_at(s, at, b'0') && digit_at(s, at + 1)
}
