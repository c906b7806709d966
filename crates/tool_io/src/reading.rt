// Reading lines from an open file.
use lines::Reader;
use nets::Refusal;
use std::io;
use std::io::Read;
use text_either::first::family;
use tool_files::read_full;

// The bytes that tell the family of an input: a line that is longer is none.
const HEAD: usize = 50;

// The bytes of a piece of the input.
const PIECE: usize = 65536;

// Why the lines did not all come in: the first that is refused, by its number from 1 on, or that the input cannot be read.
#[derive(Clone, Copy)]
pub enum LinesError {
    Refused(u64, Refusal),
    Unreadable(io::Error),
}

impl From<io::Error> for LinesError {
    fn from(error: io::Error) -> LinesError {
        LinesError::Unreadable(error)
    }
}

// The family of the first line; and each line's network is added, of which so many lines were trimmed, a set bit past the length being cut.
#[derive(Clone, Copy)]
pub struct Lines {
    pub family: u8,
    pub trimmed: u64,
}

// Reads to the end of the input or to the first refused line, in large pieces, since each is begun with a check of the pool. A proved loop has to end, and
// nothing says that the input does: the loop has as many turns as no run uses up.
fn read_all<R: Read>(from: &mut R, pool: &mut [u32], start: Reader) -> io::Result<Reader> {
    let mut buf = [0u8; PIECE];
    let mut reader = start;
    for _ in 0..u64::MAX {
        let got = from.read(&mut buf)?;
        reader = lines::feed(pool, reader, &buf[..got]);
        if got == 0 || reader.no != 0 {
            break;
        }
    }
    Ok(reader)
}

// What the end of the input makes of it: how many lines were trimmed.
fn end_lines(pool: &mut [u32], last: Reader) -> Result<u64, LinesError> {
    let r = lines::finish(pool, last);
    match Refusal::try_from(r.no) {
        Ok(refusal) => Err(LinesError::Refused(r.number, refusal)),
        Err(_) => Ok(r.trimmed),
    }
}

// Lays out a pool of one set, whose share and limit are all its nodes, for the family of the first line, and adds the networks of the lines to set 0, up to the
// first that is refused.
pub fn read_lines<R: Read>(
    from: &mut R,
    pool: &mut [u32],
    nodes: u32,
) -> Result<Lines, LinesError> {
    let mut head = [0u8; HEAD];
    let n = read_full(from, &mut head)?;
    let family = family(&head[..n]);
    let _ = pool::layout(pool, family, 0, 1, nodes, &[nodes], &[nodes], 0);
    let begun = lines::feed(pool, lines::start(), &head[..n]);
    let last = read_all(from, pool, begun)?;
    let trimmed = end_lines(pool, last)?;
    Ok(Lines { family, trimmed })
}
