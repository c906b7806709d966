// Runs the scope document's worked networks that are not proved as a table through the public calls, with cases at full pools, at the ends of the
// address words, at refusals, of public-only and of indexed sets, and in the second form: the rows of its input, each against what it must answer.
#![tactic(auto)]

use lookup::Contained;
use nets::Refusal;
use std::io;
use test_counts::calls::{Got, taken};
use test_counts::{Tally, calls, table};
use tool_files::read_full;

// The words of the largest pools here: one set of 256 nodes, three of 250.
const WORDS: usize = 2120;

fn told(a: Result<bool, Refusal>) -> Got {
    a.map_or_else(calls::refusal, |b| calls::numbers(b as u64, 0))
}

fn looked(a: Result<Contained, Refusal>) -> Got {
    a.map_or_else(calls::refusal, |c| {
        calls::numbers(c.is_member as u64, c.steps as u64)
    })
}

// The word of the pool at a number.
fn viewed(pool: &[u32], at: usize) -> u32 {
    pool.get(at).copied().unwrap_or(0)
}

// The call with three numbers that the row begins with; compare takes two.
fn on_sets(pool: &mut [u32], row: &[u8], letter: u8) -> Got {
    let a = taken(row, 1);
    let b = taken(row, 2);
    let c = taken(row, 3);
    match letter {
        b'm' => calls::answer(combine::merge(pool, a, b, c)),
        b'i' => calls::answer(combine::intersect(pool, a, b, c)),
        b'e' => calls::answer(combine::exclude(pool, a, b, c)),
        b'k' => calls::answer(combine::exclude_apart(pool, a, b, c)),
        b'g' => calls::answer(replan::replan(pool, a, b, c)),
        _ => told(compare::equal(pool, a, b)),
    }
}

// The call that the row begins with, by its first letter.
fn call(pool: &mut [u32], row: &[u8]) -> Got {
    let letter = calls::letter(row);
    match letter {
        b'p' => calls::answer(make_public::make_public(pool, taken(row, 1))),
        b'q' => looked(lookup::contains(pool, taken(row, 1), calls::net(row))),
        b'v' => calls::numbers(viewed(pool, taken(row, 1) as usize) as u64, 0),
        b'm' | b'i' | b'e' | b'k' | b'g' | b'c' => on_sets(pool, row, letter),
        _ => calls::call(pool, row),
    }
}

fn case(rt: &impl Print, t: Tally, pool: &mut [u32; WORDS], row: &[u8], must: &[u8]) -> Tally {
    let was = *pool;
    let got = call(pool, row);
    let t = calls::score(rt, t, row, must, got);
    calls::keeps(rt, t, row, must, &was, pool)
}

fn run(rt: &impl Print, text: &[u8]) -> Tally {
    let mut pool = [0u32; WORDS];
    table::run(text, |t, row| case(rt, t, &mut pool, row.call, row.must))
}

// The most bytes of the input.
const INPUT: usize = 65536;

fn main(rt: HostRuntime) -> io::Result<()> {
    let mut text = [0u8; INPUT];
    let n = read_full(&mut rt.stdin(), &mut text)?;
    test_counts::say(&rt, run(&rt, &text[..n]))
}
