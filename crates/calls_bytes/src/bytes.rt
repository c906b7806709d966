// Numbers in bytes, their lowest byte first. What is read past the end of the bytes is 0.
ghost use Rattle.std.specs.Prelude.{[], ◌∷◌, ◌≡◌, ◌+◌, ◌^◌, ◌≤◌, ◌<◌, length, get_or};
ghost use Rattle.nodes.specs.Words.{put};
ghost use Rattle.calls_bytes.specs.Bytes.{u16_at, u32_at, u64_at, u16_bytes, u32_bytes, u64_bytes};

pub fn byte_at(s: &[u8], p: usize) -> u8
    ensures { result ≡ get_or s.now p 0 }
{
    s.get(p).copied().unwrap_or(0)
}

pub fn u16_at(s: &[u8], p: usize) -> u16
    requires { p + 1 < 2 ^ 64 }
    ensures { result ≡ u16_at s.now p }
{
    byte_at(s, p) as u16 + 256 * (byte_at(s, p + 1) as u16)
}

pub fn u32_at(s: &[u8], p: usize) -> u32
    requires { p + 3 < 2 ^ 64 }
    ensures { result ≡ u32_at s.now p }
{
    u16_at(s, p) as u32 + 65536 * (u16_at(s, p + 2) as u32)
}

pub fn u64_at(s: &[u8], p: usize) -> u64
    requires { p + 7 < 2 ^ 64 }
    ensures { result ≡ u64_at s.now p }
{
    u32_at(s, p) as u64 + 4294967296 * (u32_at(s, p + 4) as u64)
}

pub fn put_u8(out: &mut [u8], at: usize, x: u8)
    requires { at < length out.old }
    ensures { out.new ≡ put out.old at (x ∷ []) }
{
    out[at] = x;
}

pub fn put_u16(out: &mut [u8], at: usize, x: u16)
    requires { at + 2 ≤ length out.old }
    ensures { out.new ≡ put out.old at (u16_bytes x) }
{
    put_u8(out, at, (x % 256) as u8);
    put_u8(out, at + 1, (x / 256) as u8);
}

pub fn put_u32(out: &mut [u8], at: usize, x: u32)
    requires { at + 4 ≤ length out.old }
    ensures { out.new ≡ put out.old at (u32_bytes x) }
{
    put_u16(out, at, (x % 65536) as u16);
    put_u16(out, at + 2, (x / 65536) as u16);
}

pub fn put_u64(out: &mut [u8], at: usize, x: u64)
    requires { at + 8 ≤ length out.old }
    ensures { out.new ≡ put out.old at (u64_bytes x) }
{
    put_u32(out, at, (x % 4294967296) as u32);
    put_u32(out, at + 4, (x / 4294967296) as u32);
}
