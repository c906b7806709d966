// The file that a row quotes: its bytes in hexadecimal.

// The longest that a row quotes has less.
pub const ROOM: usize = 192;

// How far the row is read: whether in the quotes, how many digits, and the last two of them.
#[derive(Clone, Copy)]
struct Digits {
    inside: bool,
    count: usize,
    last: u8,
}

fn with(d: Digits, c: u8) -> Digits {
    let mut d = d;
    if c == b'"' {
        d.inside = !d.inside;
        return d;
    }
    if !d.inside || c <= b' ' {
        return d;
    }
    let digit = if c < b'a' { c % 16 } else { c % 16 + 9 };
    d.last = d.last % 16 * 16 + digit % 16;
    d.count = std::num::wrapping_add_usize(d.count, 1);
    d
}

// Puts the bytes into the buffer and answers how many there are. Each is written with its first digit, and again with both.
pub fn quoted(row: &[u8], bytes: &mut [u8; ROOM]) -> usize {
    let mut d = Digits {
        inside: false,
        count: 0,
        last: 0,
    };
    for &c in row {
        let k = d.count / 2 % ROOM;
        d = with(d, c);
        bytes[k] = d.last;
    }
    d.count / 2
}
