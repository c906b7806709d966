// Buffers and lists that are filled by rule.
ghost use Rattle.std.specs.Prelude.{◌≡◌, ◌<◌, length};

// 250 lines of 16 bytes.
pub const BYTES: usize = 4000;

// Byte j of a line like the given one, with n in two digits at the place.
fn byte(line: &[u8; 16], at: usize, n: usize, j: usize) -> u8
    requires { (n < 100) × (j < 16) × (at < 16) }
{
    if j == at {
        return b'0' + (n / 10) as u8;
    }
    if j == at + 1 {
        return b'0' + (n % 10) as u8;
    }
    line[j]
}

// Lines like the given one, with 00 to 39 at the place, over and over.
pub fn lines(line: &[u8; 16], at: usize) -> [u8; BYTES]
    requires { at < 16 }
    ensures { 4000 ≡ length result }
{
    let mut buf = [0u8; BYTES];
    for i in 0..BYTES {
        buf[i] = byte(line, at, i / 16 % 40, i % 16);
    }
    buf
}

// The rows of 100.10.10.10/32, 101.10.10.10/32 and so on, 38 of them.
pub fn hosts() -> [u64; 114]
    ensures { 114 ≡ length result }
{
    let mut rows = [0u64; 114];
    for i in 0..38 {
        rows[3 * i + 1] = (i as u64) * 0x0100_0000 + 0x640a_0a0a;
        rows[3 * i + 2] = 32;
    }
    rows
}
