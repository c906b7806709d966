// Runs set files made by hand from the scope document through save, load and salvage: the rows of its input, each against what it must answer.
#![tactic(auto)]

use std::io;
use test_counts::table::Row;
use test_counts::{Tally, table};
use tool_files::read_full;

mod files;
mod rows;
mod salvaging;

// A row, with the file that it quotes.
fn case(rt: &impl Print, t: Tally, pool: &mut [u32; rows::WORDS], row: Row) -> Tally {
    let mut bytes = [0u8; files::ROOM];
    let n = files::quoted(row.whole, &mut bytes);
    rows::run(rt, t, pool, row.call, row.must, &bytes, n)
}

fn run(rt: &impl Print, text: &[u8]) -> Tally {
    let mut pool = [0u32; rows::WORDS];
    table::run(text, |t, row| case(rt, t, &mut pool, row))
}

// The most bytes of the input.
const INPUT: usize = 65536;

fn main(rt: HostRuntime) -> io::Result<()> {
    let mut text = [0u8; INPUT];
    let n = read_full(&mut rt.stdin(), &mut text)?;
    test_counts::say(&rt, run(&rt, &text[..n]))
}
