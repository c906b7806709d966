// What each call does: the one place that goes from the kind of a call to the function that answers it.
ghost use Rattle.calls.specs.Effects.{Fits, Answered};

use calls_bytes::{Call, Reply};
use calls_changes::{change, lay, write};
use calls_kinds::{Kind, kind_of};
use calls_networks::network;
use calls_replies::only;
use calls_reports::report;
use calls_tailed::{reading, tailed};

// Any call: the tail of its answer is written, the rest given. An unknown call does nothing, and a run never comes to one.
pub fn answer(
    pool: &mut [u32],
    rows: &mut [u64],
    s: &[u8],
    c: Call,
    out: &mut [u8],
    at: usize,
) -> Reply
    requires { Fits rows.old s.now c out.old at }
    ensures { Answered pool.old rows.old s.now c out.old at result pool.new rows.new out.new }
{
    let kind = kind_of(c.code);
    match kind {
        Kind::Layout => lay(pool, c, s),
        Kind::Report => report(pool, c),
        Kind::Change => change(pool, c),
        Kind::List => tailed::list(pool, rows, c, out, at),
        Kind::Network => network(s, c),
        Kind::WriteLine => tailed::line(c, out, at),
        Kind::Save => tailed::save(pool, c, out, at),
        Kind::Load => reading::load(pool, c, s),
        Kind::Lines => reading::lines(pool, c, s),
        Kind::Compare => reading::compare(c, s),
        Kind::WriteWords => write(pool, c, s),
        Kind::ReadWords => tailed::words(pool, c, out, at),
        Kind::Salvage => tailed::mend(c, s, out, at),
        Kind::Unknown => only(0),
    }
}
