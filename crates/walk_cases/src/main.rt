// Goes through whole sets, place by place, to the end, on a page and by ranges, against lists made by hand: the rows of its input, each against what it must answer.
#![tactic(auto)]

use netrows::{Page, page_of};
use nets::{Net, Refusal};
use rangelist::ranges;
use std::io;
use test_counts::calls::{Got, taken};
use test_counts::table::Word;
use test_counts::{Tally, calls, table};
use tool_files::read_full;

// The words of the largest pool here: two sets, 300 nodes.
const WORDS: usize = 2480;

fn network(n: Net) -> Got {
    let first = Word {
        form: n.family,
        hi: n.hi,
        lo: n.lo,
    };
    let second = table::number(n.len as u64);
    Got { first, second }
}

fn end() -> Got {
    let first = calls::named(b'e');
    let second = table::number(0);
    Got { first, second }
}

fn follower(f: Result<Option<Net>, Refusal>) -> Got {
    match f {
        Ok(Some(n)) => network(n),
        Ok(None) => end(),
        Err(no) => calls::refusal(no),
    }
}

fn entry(p: Page, i: usize) -> Got {
    match p.nets.get(i) {
        Some(m) => network(*m),
        None => calls::numbers(0, 0),
    }
}

const ZEROS: Net = Net {
    family: 0,
    hi: 0,
    lo: 0,
    len: 0,
};

// Whether from this entry on a page holds zeros.
fn zeros(p: Page, from: usize) -> Got {
    let right = p.nets.iter().skip(from).all(|m| *m == ZEROS);
    calls::numbers(right as u64, 0)
}

// How many ranges a set has, where so many of 32 numbers are lent.
fn cover(pool: &[u32], set: u32, lent: usize) -> Got {
    let mut rows = [7u64; 32];
    if 32 < lent {
        return calls::numbers(0, 0);
    }
    calls::answer(ranges(pool, set, &mut rows[..lent]))
}

// The numbers that the call leaves in 32 that were 7.
fn left(pool: &[u32], set: u32) -> [u64; 32] {
    let mut rows = [7u64; 32];
    let _ = ranges(pool, set, &mut rows);
    rows
}

// First and last address of the range at a place, in the family.
fn bounds(pool: &[u32], set: u32, i: usize, family: u8) -> Got {
    if 7 < i {
        return calls::numbers(0, 0);
    }
    let rows = left(pool, set);
    let k = 4 * i;
    let first = Word {
        form: family,
        hi: rows[k],
        lo: rows[k + 1],
    };
    let second = Word {
        form: family,
        hi: rows[k + 2],
        lo: rows[k + 3],
    };
    Got { first, second }
}

// The number at a place of the rows afterwards.
fn kept(pool: &[u32], set: u32, i: usize) -> Got {
    let rows = left(pool, set);
    calls::numbers(rows.get(i).copied().unwrap_or(0), 0)
}

// The family of a pool, as its second word has it.
fn family(pool: &[u32]) -> u8 {
    if pool.len() < 2 {
        return 0;
    }
    (pool[1] % 256) as u8
}

// The call that the row begins with, by its first letter.
fn call(pool: &mut [u32], row: &[u8]) -> Got {
    let set = taken(row, 1);
    let i = taken(row, 2);
    match calls::letter(row) {
        b'n' => follower(walk::nth(pool, set, i)),
        b'f' => follower(walk::last(pool, set)),
        b'p' => calls::answer(page_of(pool, set).answer),
        b'e' => entry(page_of(pool, set), i as usize),
        b'z' => zeros(page_of(pool, set), i as usize),
        b'c' => cover(pool, set, i as usize),
        b'b' => bounds(pool, set, i as usize, family(pool)),
        b'k' => kept(pool, set, i as usize),
        _ => calls::call(pool, row),
    }
}

fn case(rt: &impl Print, t: Tally, pool: &mut [u32; WORDS], row: &[u8], must: &[u8]) -> Tally {
    let got = call(pool, row);
    calls::score(rt, t, row, must, got)
}

fn run(rt: &impl Print, text: &[u8]) -> Tally {
    let mut pool = [0u32; WORDS];
    table::run(text, |t, row| case(rt, t, &mut pool, row.call, row.must))
}

// The most bytes of the input.
const INPUT: usize = 65536;

fn main(rt: HostRuntime) -> io::Result<()> {
    let mut text = [0u8; INPUT];
    let n = read_full(&mut rt.stdin(), &mut text)?;
    test_counts::say(&rt, run(&rt, &text[..n]))
}
