// Running a list of calls: each call is judged before anything of it is done, then done, and its answer written behind the last one.
ghost use Rattle.std.specs.Prelude.{◌+◌, ◌*◌, ◌≤◌, length};
ghost use Rattle.calls.specs.Effects.{Fits};
ghost use Rattle.calls.specs.Runs.{Stepped, Ran};

use crate::answering::answer;
use calls_bytes::Call;
use calls_bytes::records::{REPLY, call_at, put_reply};
use calls_kinds::places::{START, Stop, past, stop_at};

// A run that has ended: why, how many calls were done, and how many bytes their answers have.
#[derive(Clone, Copy)]
pub struct Ended {
    pub why: Stop,
    pub done: u64,
    pub to: usize,
}

// Does a call and writes its answer.
fn step(pool: &mut [u32], rows: &mut [u64], s: &[u8], c: Call, out: &mut [u8], to: usize)
    requires { Fits rows.old s.now c out.old (to + 28) }
    ensures { Stepped pool.old rows.old s.now c out.old to pool.new rows.new out.new }
{
    let r = answer(pool, rows, s, c, out, to + REPLY);
    put_reply(out, to, r);
}

// Runs the calls from the first on.
pub fn run(pool: &mut [u32], rows: &mut [u64], calls: &[u8], out: &mut [u8]) -> Ended
    ensures ran { Ran pool.old rows.old calls.now out.old result pool.new rows.new out.new }
    ensures done_in_bounds { (35 * result.done ≤ length calls.now) × (result.to ≤ length out.old) }
{
    let mut place = START;
    'turns: loop {
        let at = place.at;
        let to = place.to;
        if let Some(why) = stop_at(calls, at, rows.len(), out.len() - to) {
            let done = place.done;
            return Ended { why, done, to };
        }
        let c = call_at(calls, at);
        place = past(place, c);
        let end = place.at;
        step(pool, rows, &calls[at..end], c, out, to);
    }
}
