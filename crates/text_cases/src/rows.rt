// The lines of a row, one after the other: a bar ends each, and the first of them have an entry.
use crate::expect;
use nets::Refusal;
use test_counts::{Tally, count};

// The network of the entry, written to buffers of every length, gives the line and the report, or is refused where they are too short.
fn rooms(t: Tally, line: &[u8], entry: u64, trimmed: bool) -> Tally {
    let net = expect::net_of(entry);
    let mut t = t;
    for room in 0..25 {
        let must = if room < line.len() {
            Err(Refusal::ShortBuffer)
        } else {
            Ok(trimmed)
        };
        t = count(t, expect::writes(net, room, line, must));
    }
    t
}

// A line with a set bit past its length, and its address as given: read as the entry without it, and written as the line without it, both with the report.
pub fn trimmed(t: Tally, line: &[u8], given: u64, clear: &[u8], entry: u64) -> Tally {
    let t = count(t, expect::reads(line, Some(entry), true));
    rooms(t, clear, given, true)
}

// The line is read as the entry, which is written as the line, nothing being cut; where there is none the line is refused.
fn line(t: Tally, line: &[u8], entry: Option<u64>) -> Tally {
    let t = count(t, expect::reads(line, entry, false));
    match entry {
        Some(e) => rooms(t, line, e, false),
        None => t,
    }
}

pub fn lines(t: Tally, row: &[u8], entries: &[u64]) -> Tally {
    let mut t = t;
    let mut from = 0;
    let mut k = 0;
    for at in 0..row.len() {
        if row[at] == b'|' {
            t = line(t, &row[from..at], entries.get(k).copied());
            from = at + 1;
            k += 1;
        }
    }
    t
}
