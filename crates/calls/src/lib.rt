// A list of calls in as bytes, their answers out as bytes: docs/CALLS.md has the encoding. For programs in other languages calls_c exports it.
#![tactic(auto)]

ghost use Rattle.calls.specs.Runs.{RunsTo};

use running::run;

mod answering;
pub mod running;

// Runs the calls on the pool and writes the answers from the first byte of out on. Answers eight times the number of calls that were done, and why it ended.
pub fn marlbrace_run(pool: &mut [u32], rows: &mut [u64], calls: &[u8], out: &mut [u8]) -> u64
    ensures { RunsTo pool.old rows.old calls.now out.old result pool.new rows.new out.new }
{
    let ended = run(pool, rows, calls, out);
    8 * ended.done + u8::from(ended.why) as u64
}
