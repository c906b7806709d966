// Runs the examples of RFC 4291, sections 2.2 and 2.3, and of RFC 5952, sections 2, 4 and 5, through reading and writing: the rows of its input, each
// against what it must answer.
#![tactic(auto)]

mod expect;

use std::io;
use test_counts::calls::taken;
use test_counts::table::Word;
use test_counts::{Tally, table};
use tool_files::read_full;

// The first text in quotes, or an empty one.
fn quoted(s: &[u8]) -> &[u8] {
    s.split(|c| *c == b'"').nth(1).unwrap_or(b"")
}

// The line is read as the network of the word and the length behind it, which is written as the text.
fn read(t: Tally, line: &[u8], w: Word, must: &[u8]) -> Tally {
    let len = (taken(must, 1) % 256) as u8;
    expect::reads(t, line, w.hi, w.lo, len, quoted(must))
}

// A row without a sign is no case.
fn case(t: Tally, row: &[u8], must: &[u8]) -> Tally {
    if must.len() == 0 {
        return t;
    }
    let line = quoted(row);
    let w = table::word_at(must, 0);
    if w.form == table::NAME {
        return expect::refuses(t, line);
    }
    read(t, line, w, must)
}

fn run(text: &[u8]) -> Tally {
    table::run(text, |t, row| case(t, row.call, row.must))
}

// The most bytes of the input.
const INPUT: usize = 65536;

fn main(rt: HostRuntime) -> io::Result<()> {
    let mut text = [0u8; INPUT];
    let n = read_full(&mut rt.stdin(), &mut text)?;
    test_counts::say(&rt, run(&text[..n]))
}
