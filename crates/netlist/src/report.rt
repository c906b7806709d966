// What is written to standard output. Each function fails where not all of it was written.
use std::io;
use std::io::ErrorKind;

// A pool of 1,000 nodes has no more networks than nodes; three numbers each.
const ROWS: usize = 3000;

// The one line of an input with a refused line, by a refusal or its number.
pub fn refused<N: Into<u8>>(out: &impl Print, number: u64, no: N) -> io::Result<()> {
    let no: u8 = no.into();
    println!(out; "line {number} refused {no}")
}

// How many networks and nodes set 0 has, and how many lines were trimmed.
fn counts(out: &impl Print, pool: &[u32], trimmed: u64) -> io::Result<()> {
    let Ok((nodes, networks)) = pool::held(pool, 0) else {
        return Err(io::Error::new(ErrorKind::InvalidData, "a pool without set 0"));
    };
    println!(out; "{networks} networks, {nodes} nodes, {trimmed} trimmed")
}

// Set 0: its counts, and its networks, which are of the family.
pub fn set(out: &impl Print, pool: &[u32], family: u8, trimmed: u64) -> io::Result<()> {
    counts(out, pool, trimmed)?;
    let mut rows = [0u64; ROWS];
    tool_print::print_set(out, pool, family, 0, &mut rows)
}
