// Numbers in the tails of calls and answers.
ghost use Rattle.std.specs.Prelude.{[], ◌∷◌, ◌≡◌, ◌+◌, ◌*◌, ◌^◌, ◌≤◌, ◌<◌, length, get_or, replicate};
ghost use Rattle.nodes.specs.Words.{put};
ghost use Rattle.calls_bytes.specs.Bytes.{u32_bytes, u64_bytes};
ghost use Rattle.calls_bytes.specs.Tails.{words_from, numbers_from, row_bytes};

use crate::bytes::{put_u32, put_u64, u32_at};

// The word of that number, or 0 past the end.
fn word_at(w: &[u32], i: usize) -> u32
    ensures { result ≡ get_or w.now i 0 }
{
    w.get(i).copied().unwrap_or(0)
}

// Writes a word; past the end it is dropped. Not by `get_mut`: its contract on a slice leaves open what the slice is once the place is written.
fn store_word(w: &mut [u32], i: usize, x: u32)
    ensures { w.new ≡ put w.old i (x ∷ []) }
{
    if w.len() <= i {
        return;
    }
    w[i] = x;
}

// Writes so many words from number first on, as they stand in the bytes from p on.
pub fn store_words(w: &mut [u32], first: usize, s: &[u8], p: usize, count: usize)
    requires { (first + count < 2 ^ 63) × (p + 4 * count < 2 ^ 63) }
    ensures { w.new ≡ put w.old first (numbers_from s.now p count) }
{
    for i in 0..count {
        store_word(w, first + i, u32_at(s, p + 4 * i));
    }
}

// Writes the bytes of so many words from number first on.
pub fn put_words(w: &[u32], first: usize, count: usize, out: &mut [u8], at: usize)
    requires { (first + count < 2 ^ 63) × (at + 4 * count ≤ length out.old) }
    ensures { out.new ≡ put out.old at (row_bytes u32_bytes (words_from w.now first count)) }
{
    for i in 0..count {
        put_u32(out, at + 4 * i, word_at(w, first + i));
    }
}

// Writes the bytes of so many rows.
pub fn put_rows(rows: &[u64], count: usize, out: &mut [u8], at: usize)
    requires { (count ≤ length rows.now) × (at + 8 * count ≤ length out.old) }
    ensures { out.new ≡ put out.old at (row_bytes u64_bytes (words_from rows.now 0 count)) }
{
    for i in 0..count {
        put_u64(out, at + 8 * i, rows[i]);
    }
}

// Fills so many bytes from a place on.
pub fn fill_bytes(out: &mut [u8], at: usize, count: usize, x: u8)
    requires { at + count ≤ length out.old }
    ensures { out.new ≡ put out.old at (replicate count x) }
{
    out[at..at + count].fill(x);
}

// Fills the first so many rows.
pub fn fill_rows(rows: &mut [u64], count: usize, x: u64)
    requires { count ≤ length rows.old }
    ensures { rows.new ≡ put rows.old 0 (replicate count x) }
{
    rows[..count].fill(x);
}
