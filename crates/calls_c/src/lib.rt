// The run of a list of calls under its name for C, for programs in other languages: docs/CALLS.md has the encoding.
#![tactic(auto)]

ghost use Rattle.calls.specs.Runs.{RunsTo};

// What the library's function of this name does.
#[unsafe(no_mangle)]
pub extern "C" fn marlbrace_run(
    pool: &mut [u32],
    rows: &mut [u64],
    calls: &[u8],
    out: &mut [u8],
) -> u64
    ensures { RunsTo pool.old rows.old calls.now out.old result pool.new rows.new out.new }
{
    calls::marlbrace_run(pool, rows, calls, out)
}
