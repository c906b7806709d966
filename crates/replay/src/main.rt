// Replays calls whose answers the Rust crate iprange and the harness's model made: `harness/run sample` writes them. Standard input is frames of 65,536 bytes: 128 that say in words how
// they were made, how many bytes of calls and of answers there are, the calls and the answers as docs/CALLS.md has them, and zeros. Each frame has a pool of its own.
#![tactic(auto)]

ghost use Rattle.std.specs.Prelude.{◌≡◌, length};

use calls::running::run;
use calls_bytes::bytes::u32_at;
use calls_kinds::places::Stop;
use std::io;
use std::io::Read;
use tool_files::read_full;

// The words of the pool, and the rows, that the calls run on.
const WORDS: usize = 8192;

const ROWS: usize = 4096;

// Where the calls of a frame begin.
const HEAD: usize = 136;

const FRAME: usize = 65536;

// What came of a frame: how many calls were done, and whether all answers are those that were made.
#[derive(Clone, Copy)]
struct Replayed {
    calls: u64,
    right: bool,
}

// The words of a pool, and rows. Each contract gives only the length, which lending the array needs.
fn words_of() -> [u32; WORDS]
    ensures { 8192 ≡ length result }
{
    [0; WORDS]
}

fn rows_of() -> [u64; ROWS]
    ensures { 4096 ≡ length result }
{
    [0; ROWS]
}

// Runs the calls on a new pool and compares the answers.
fn replay(calls: &[u8], answers: &[u8]) -> Replayed {
    let mut pool = words_of();
    let mut rows = rows_of();
    let mut out = [0u8; FRAME];
    let ended = run(&mut pool, &mut rows, calls, &mut out);
    let to = ended.to;
    let same = &out[..to] == answers;
    Replayed {
        calls: ended.done,
        right: same && ended.why == Stop::Whole,
    }
}

// A frame that is none: no calls that could be run.
const NOTHING: Replayed = Replayed {
    calls: 0,
    right: false,
};

// The calls and the answers of a frame.
fn frame(input: &[u8]) -> Replayed {
    if input.len() < FRAME {
        return NOTHING;
    }
    let n = u32_at(input, 128) as usize;
    let m = u32_at(input, 132) as usize;
    if n + m > FRAME - HEAD {
        return NOTHING;
    }
    replay(&input[HEAD..HEAD + n], &input[HEAD + n..HEAD + n + m])
}

// What came of the next frame of the input, or None behind the last one.
fn next_frame<R: Read>(from: &mut R) -> io::Result<Option<Replayed>> {
    let mut input = [0u8; FRAME];
    let n = read_full(from, &mut input)?;
    if n < FRAME {
        return Ok(None);
    }
    Ok(Some(frame(&input)))
}

// Writes how many calls were done, and how many frames came out otherwise.
fn say(rt: &impl Print, calls: u64, wrong: u64) -> io::Result<()> {
    println!(rt; "{calls} calls, {wrong} frames wrong")
}

// Reads frames to the end of the input. A proved loop has to end, and nothing says that the input does: the loop has as many turns as no run uses up.
fn main(rt: HostRuntime) -> io::Result<()> {
    let mut calls: u64 = 0;
    let mut wrong: u64 = 0;
    let mut input = rt.stdin();
    for _ in 0..u32::MAX {
        let Some(r) = next_frame(&mut input)? else {
            break;
        };
        calls = std::num::wrapping_add_u64(calls, r.calls);
        wrong = std::num::wrapping_add_u64(wrong, !r.right as u64);
    }
    say(&rt, calls, wrong)
}
