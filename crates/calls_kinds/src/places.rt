// Where a run stands: whether the call there is done, and where the next one begins.
ghost use Rattle.std.specs.Prelude.{◌≡◌, ◌≤◌, length};
ghost use Rattle.calls_kinds.specs.Places.{stop_number, stop_as, stop_of, stop_at, past_of, Room};

use crate::{asks_of, tail_length};
use calls_bytes::Call;
use calls_bytes::records::{CALL, REPLY, call_at};

// Why a run ends.
#[derive(Clone, Copy, Debug, PartialEq, Eq)]
pub enum Stop {
    Whole,
    Cut,
    Unknown,
    Full,
    Rows,
}

// The number of docs/CALLS.md.
impl From<Stop> for u8 {
    ghost from_gives = { λ stop n. n ≡ stop_number stop };

    fn from(stop: Stop) -> u8 {
        match stop {
            Stop::Whole => 0,
            Stop::Cut => 1,
            Stop::Unknown => 2,
            Stop::Full => 3,
            Stop::Rows => 4,
        }
    }
}

// The next call begins at `at`, its answer at `to`, and so many calls are done.
#[derive(Clone, Copy)]
pub struct Place {
    pub at: usize,
    pub to: usize,
    pub done: u64,
}

pub const START: Place = Place {
    at: 0,
    to: 0,
    done: 0,
};

// Why a call is not done, where so many rows are lent and so many bytes are left for answers; None where it is done.
fn stop_of(c: Call, rows: usize, room: usize) -> Option<Stop>
    ensures { stop_as result ≡ stop_of c rows room }
{
    let Some(asks) = asks_of(c) else {
        return Some(Stop::Unknown);
    };
    if room < REPLY + asks.bytes {
        return Some(Stop::Full);
    }
    if rows < asks.rows {
        return Some(Stop::Rows);
    }
    None
}

// Why a run ends here, or None where it goes on.
pub fn stop_at(calls: &[u8], at: usize, rows: usize, room: usize) -> Option<Stop>
    requires { at ≤ length calls.now }
    ensures { stop_as result ≡ stop_at calls.now at rows room }
{
    let left = calls.len() - at;
    if left == 0 {
        return Some(Stop::Whole);
    }
    if left < CALL {
        return Some(Stop::Cut);
    }
    let c = call_at(calls, at);
    if left - CALL < c.tail as usize {
        return Some(Stop::Cut);
    }
    stop_of(c, rows, room)
}

// The place past a call and its answer.
pub fn past(p: Place, c: Call) -> Place
    requires { Room p c }
    ensures { result ≡ past_of p c }
{
    Place {
        at: p.at + CALL + c.tail as usize,
        to: p.to + REPLY + tail_length(c),
        done: p.done + 1,
    }
}
