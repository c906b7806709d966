// Groups that colons join, as far as they go.
ghost use Rattle.std.specs.Prelude.{true, ◌≡◌, ◌+◌, ◌-◌, ◌/◌, ◌%◌, ◌≤◌, ◌<◌, length, take, drop, set};
ghost use Rattle.text_ipv6_runs.specs.Runs.{run_from};
ghost use Rattle.text_ipv6_runs.specs.Places.{run_words, is_open, is_quad, Fits, ran_as, Stepped};
ghost use Rattle.text_ipv6_runs.specs.declared.runs.Stand.TheVariants.{Ended, Quad};

use crate::pieces;
use crate::pieces::Found;

// How a run stands: a piece may follow, none does, or a quad ended it.
#[derive(Clone, Copy, Debug, PartialEq, Eq)]
pub enum Stand {
    Open,
    Ended,
    Quad,
}

impl Stand {
    fn is_open(self) -> bool
        ensures { result ≡ is_open self }
    {
        matches!(self, Stand::Open)
    }

    pub fn is_quad(self) -> bool
        ensures { result ≡ is_quad self }
    {
        matches!(self, Stand::Quad)
    }
}

// The groups so far and how many, how the run stands, and the place behind it.
#[derive(Clone, Copy)]
pub struct Run {
    pub groups: [u16; 8],
    pub count: usize,
    pub stand: Stand,
    pub at: usize,
}

// No piece follows.
fn stopped(r: Run) -> Run
    ensures { result ≡ run_words r.groups r.count Ended r.at }
{
    Run {
        stand: Stand::Ended,
        ..r
    }
}

// One group more, and the place behind it.
fn grown(r: Run, x: u16, at: usize, stand: Stand) -> Run
    requires { r.count < 8 }
    ensures { result ≡ run_words (set r.groups r.count x) (r.count + 1) stand at }
{
    let mut groups = r.groups;
    let count = r.count;
    groups[count] = x;
    Run {
        groups,
        count: count + 1,
        stand,
        at,
    }
}

// The two groups of a quad, and the place behind it: the last piece.
fn ended(r: Run, v: u32, at: usize) -> Run
    requires { r.count < 7 }
    ensures { result ≡ run_words (set (set r.groups r.count (v / 65536)) (r.count + 1) (v % 65536)) (r.count + 2) Quad at }
{
    let mut groups = r.groups;
    let count = r.count;
    groups[count] = (v / 65536) as u16;
    groups[count + 1] = (v % 65536) as u16;
    Run {
        groups,
        count: count + 2,
        stand: Stand::Quad,
        at,
    }
}

// One piece more, if one stands there.
fn step(s: &[u8], r: Run) -> Run
    requires { Fits r × (is_open r.stand ≡ true) }
    ensures { Stepped s.now r result }
{
    let count = r.count;
    let at = r.at;
    if 8 <= count {
        return stopped(r);
    }
    let Some(p) = pieces::piece(s, at, count) else {
        return stopped(r);
    };
    match p {
        Found::Quad(v, behind) => ended(r, v, behind),
        Found::Group(x, behind) => {
            if pieces::goes_on(s, behind) {
                return grown(r, x, behind + 1, Stand::Open);
            }
            grown(r, x, behind, Stand::Ended)
        }
    }
}

// The pieces from a place on, behind so many groups.
pub fn read(s: &[u8], groups: [u16; 8], count: usize, at: usize) -> Run
    requires { (length groups ≡ 8) × (count ≤ 8) }
    ensures { Fits result × (ran_as s.now result ≡ run_from (8 - count) (take count groups) (drop at s.now)) }
{
    let mut r = Run {
        groups,
        count,
        stand: Stand::Open,
        at,
    };
    while r.stand.is_open() {
        r = step(s, r);
    }
    r
}
