// The calls whose answers have a tail. Each writes the tail at its place in out, and gives the rest of its answer.
ghost use Rattle.std.specs.Prelude.{◌≡◌, ◌+◌, ◌*◌, ◌≤◌, length};
ghost use Rattle.nodes.specs.Words.{put};
ghost use Rattle.calls_bytes.specs.Bytes.{u32_bytes};
ghost use Rattle.calls_bytes.specs.Tails.{words_from, row_bytes};
ghost use Rattle.calls_replies.specs.Replies.{no_reply};
ghost use Rattle.calls_tailed.specs.Tailed.{lent_bytes, RowsBy, Listing, Lining, Saving, Mending};

use calls_bytes::records::CALL;
use calls_bytes::tails::{fill_bytes, fill_rows, put_rows, put_words};
use calls_bytes::{Call, Reply, table};
use calls_replies::{of_answer, of_salvaged, of_written, only};
use nets::Refusal;

// The networks of a set or its ranges, by the code, into rows that are lent for it.
fn rows_by(pool: &[u32], c: Call, rows: &mut [u64]) -> Result<u32, Refusal>
    ensures { RowsBy pool.now c rows.old result rows.new }
{
    if c.code == table::RANGES {
        return rangelist::ranges(pool, c.a, rows);
    }
    listing::list(pool, c.a, rows)
}

// The networks of a set, or its ranges, in rows that were all c before.
pub fn list(pool: &[u32], rows: &mut [u64], c: Call, out: &mut [u8], at: usize) -> Reply
    requires { (c.b ≤ length rows.old) × (at + 8 * c.b ≤ length out.old) }
    ensures { Listing pool.now rows.old c out.old at result rows.new out.new }
{
    let n = c.b as usize;
    fill_rows(rows, n, c.c as u64);
    let a = rows_by(pool, c, &mut rows[..n]);
    put_rows(rows, n, out, at);
    of_answer(a)
}

// Fills the bytes that are lent to a call.
fn fill(out: &mut [u8], at: usize, c: Call)
    requires { at + c.b ≤ length out.old }
    ensures { out.new ≡ put out.old at (lent_bytes c) }
{
    fill_bytes(out, at, c.b as usize, (c.c % 256) as u8);
}

// The line of a network, in bytes that were all c before.
pub fn line(c: Call, out: &mut [u8], at: usize) -> Reply
    requires { at + c.b ≤ length out.old }
    ensures { Lining c out.old at result out.new }
{
    fill(out, at, c);
    let end = at + c.b as usize;
    of_written(text_either::write_line(c.net, &mut out[at..end]))
}

// The file of a set, in bytes that were all c before.
pub fn save(pool: &[u32], c: Call, out: &mut [u8], at: usize) -> Reply
    requires { at + c.b ≤ length out.old }
    ensures { Saving pool.now c out.old at result out.new }
{
    fill(out, at, c);
    let end = at + c.b as usize;
    of_answer(setfile::save(pool, c.a, &mut out[at..end]))
}

// The right file of what is left of the file in the tail, in bytes that were all c before.
pub fn mend(c: Call, s: &[u8], out: &mut [u8], at: usize) -> Reply
    requires { (35 ≤ length s.now) × (at + c.b ≤ length out.old) }
    ensures { Mending c s.now out.old at result out.new }
{
    fill(out, at, c);
    let end = at + c.b as usize;
    of_salvaged(salvage::salvage(&s[CALL..], &mut out[at..end]))
}

// The words of the pool from number a on.
pub fn words(pool: &[u32], c: Call, out: &mut [u8], at: usize) -> Reply
    requires { at + 4 * c.b ≤ length out.old }
    ensures value { result ≡ no_reply 0 }
    ensures out_after { out.new ≡ put out.old at (row_bytes u32_bytes (words_from pool.now c.a c.b)) }
{
    put_words(pool, c.a as usize, c.b as usize, out, at);
    only(0)
}
