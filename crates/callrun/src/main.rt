// Runs a list of calls from standard input and writes their answers to standard output: docs/CALLS.md, so that any language can drive the library through a pipe.
#![tactic(auto)]

ghost use Rattle.std.specs.Prelude.{◌≡◌, ◌≤◌, length};

use calls::running::run;
use calls_bytes::bytes::{put_u64, u32_at};
use std::io;
use tool_files::read_full;

// The most words of a pool. As many bytes are kept of the input, and as many lent for answers.
const WORDS: usize = 65536;

const ROWS: usize = 16384;

// The words of a pool, and rows. Each contract gives only the length, which lending the array needs.
fn words_of() -> [u32; WORDS]
    ensures { 65536 ≡ length result }
{
    [0; WORDS]
}

fn rows_of() -> [u64; ROWS]
    ensures { 16384 ≡ length result }
{
    [0; ROWS]
}

// Runs the calls on a pool of so many words.
fn answer(rt: &impl Print, calls: &[u8], words: usize) -> io::Result<()>
    requires { words ≤ 65536 }
{
    let mut pool = words_of();
    let mut rows = rows_of();
    let mut out = [0u8; WORDS];
    let ended = run(&mut pool[..words], &mut rows, calls, &mut out);
    let mut head = [0u8; 8];
    put_u64(&mut head, 0, 8 * ended.done + u8::from(ended.why) as u64);
    rt.write_all(&head)?;
    let to = ended.to;
    rt.write_all(&out[..to])
}

// An input that fills the buffer may be longer than it.
fn main(rt: HostRuntime) -> io::Result<()> {
    let mut input = [0u8; WORDS];
    let n = read_full(&mut rt.stdin(), &mut input)?;
    if n < 4 {
        return Ok(());
    }
    if n == input.len() {
        return Ok(());
    }
    let words = u32_at(&input, 0) as usize;
    if words > WORDS {
        return Ok(());
    }
    answer(&rt, &input[4..n], words)
}
