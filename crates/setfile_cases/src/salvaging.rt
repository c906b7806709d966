// Rows of wrecked files: so many bytes of what the row quotes are the file, and the others the right file of what is left of it.
use crate::files::ROOM;
use crate::rows::begins;
use nets::Refusal;
use salvage::Counts;
use test_counts::Tally;
use test_counts::calls::{letter, refuses, taken, tell};

// The counts that the row must get: read, trimmed, dropped for their length, dropped as covered; and the bytes.
fn counts(a: Result<Counts, Refusal>, must: &[u8], bytes: usize) -> bool {
    let Ok(c) = a else {
        return false;
    };
    let first = c.read == taken(must, 0) && c.trimmed == taken(must, 1);
    let second = c.long == taken(must, 2) && c.covered == taken(must, 3);
    first && second && c.bytes as usize == bytes
}

// Salvages into the first bytes of the buffer.
fn salvage_to(file: &[u8], out: &mut [u8], room: usize) -> Result<Counts, Refusal> {
    if out.len() < room {
        return Err(Refusal::BadSetup);
    }
    salvage::salvage(file, &mut out[0..room])
}

// Refused with this number, in so many bytes of the output, of which none changes.
fn denied(
    rt: &impl Print,
    t: Tally,
    row: &[u8],
    must: &[u8],
    file: &[u8],
    room: usize,
    no: u32,
) -> Tally {
    let was = [165u8; ROOM];
    let mut out = [165u8; ROOM];
    let a = salvage_to(file, &mut out, room);
    let t = tell(rt, t, row, must, refuses(a, no));
    tell(rt, t, row, must, out == was)
}

// Granted in so many bytes of the output, which begins with the right file and is behind it as it was.
fn granted(
    rt: &impl Print,
    t: Tally,
    row: &[u8],
    must: &[u8],
    file: &[u8],
    room: usize,
    right: &[u8],
) -> Tally {
    let was = [165u8; ROOM];
    let mut out = [165u8; ROOM];
    let a = salvage_to(file, &mut out, room);
    let t = tell(rt, t, row, must, counts(a, must, right.len()));
    tell(rt, t, row, must, begins(&out, right, &was))
}

// The file in all of the output, in just enough of it, and in one byte less.
fn judged(rt: &impl Print, t: Tally, row: &[u8], must: &[u8], file: &[u8], right: &[u8]) -> Tally {
    if letter(must) == b'r' {
        return denied(rt, t, row, must, file, ROOM, taken(must, 1));
    }
    let t = granted(rt, t, row, must, file, ROOM, right);
    let t = granted(rt, t, row, must, file, right.len(), right);
    if right.len() == 0 {
        return t;
    }
    denied(rt, t, row, must, file, right.len() - 1, 11)
}

// A row of a wrecked file.
pub fn mend(rt: &impl Print, t: Tally, row: &[u8], must: &[u8], bytes: &[u8]) -> Tally {
    let n = taken(row, 1) as usize;
    if bytes.len() < n {
        return tell(rt, t, row, must, false);
    }
    judged(rt, t, row, must, &bytes[0..n], &bytes[n..])
}
