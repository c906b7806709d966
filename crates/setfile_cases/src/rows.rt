// What each kind of row runs.
use crate::files::ROOM;
use crate::salvaging;
use nets::Refusal;
use setfile_compare::{Compared, Holder, compare};
use test_counts::calls::{Got, named, refuses, taken, tell};
use test_counts::table::{Word, number};
use test_counts::{Tally, calls, same};

// The words of the pools here: two sets, 140 nodes.
pub const WORDS: usize = 1200;

fn grants(a: Result<u32, Refusal>, n: usize) -> bool {
    a.is_ok_and(|m| m as usize == n)
}

// The number of the refusal that the row must get.
fn number_of(must: &[u8]) -> u32 {
    taken(must, 1) % 256
}

// Saves the set into the first bytes of the buffer.
fn save_to(pool: &[u32], set: u32, out: &mut [u8], room: usize) -> Result<u32, Refusal> {
    if out.len() < room {
        return Err(Refusal::BadSetup);
    }
    setfile::save(pool, set, &mut out[0..room])
}

// Whether the buffer begins with the bytes and is behind them as it was.
pub fn begins(out: &[u8], bytes: &[u8], was: &[u8]) -> bool {
    let n = bytes.len();
    out.starts_with(bytes) && out.get(n..) == was.get(n..)
}

// Saved to so many bytes, set 0 gives this file and leaves what is behind it.
fn fits(
    rt: &impl Print,
    t: Tally,
    pool: &[u32],
    room: usize,
    row: &[u8],
    must: &[u8],
    bytes: &[u8],
) -> Tally {
    let was = [165u8; ROOM];
    let mut out = [165u8; ROOM];
    let a = save_to(pool, 0, &mut out, room);
    let t = tell(rt, t, row, must, grants(a, bytes.len()));
    tell(rt, t, row, must, begins(&out, bytes, &was))
}

// Saved to so many bytes, the set gets this refusal, and no byte changes.
fn denies(
    rt: &impl Print,
    t: Tally,
    pool: &[u32],
    set: u32,
    room: usize,
    row: &[u8],
    must: &[u8],
    no: u32,
) -> Tally {
    let was = [165u8; ROOM];
    let mut out = [165u8; ROOM];
    let a = save_to(pool, set, &mut out, room);
    let t = tell(rt, t, row, must, refuses(a, no));
    tell(rt, t, row, must, out == was)
}

// The file of set 0: with room to spare, with just enough, and with a byte less.
fn saves(rt: &impl Print, t: Tally, pool: &[u32], row: &[u8], must: &[u8], bytes: &[u8]) -> Tally {
    let t = fits(rt, t, pool, ROOM, row, must, bytes);
    let t = fits(rt, t, pool, bytes.len(), row, must, bytes);
    if bytes.len() == 0 {
        return t;
    }
    denies(rt, t, pool, 0, bytes.len() - 1, row, must, 11)
}

// Laid out for the family, a pool refuses the file, and keeps every word.
fn breaks(rt: &impl Print, t: Tally, family: u8, row: &[u8], must: &[u8], bytes: &[u8]) -> Tally {
    let no = number_of(must);
    let mut pool = [0u32; WORDS];
    let a = pool::layout(&mut pool, family, 0, 2, 140, &[0, 0], &[140, 140], 0);
    let t = tell(rt, t, row, must, grants(a, 0));
    let was = pool;
    let a = setfile::load(&mut pool, 0, bytes);
    let t = tell(rt, t, row, must, refuses(a, no));
    tell(rt, t, row, must, same(&was, &pool))
}

// Every beginning of the file is broken.
fn cuts(rt: &impl Print, t: Tally, family: u8, row: &[u8], must: &[u8], bytes: &[u8]) -> Tally {
    let mut t = t;
    for n in 0..bytes.len() {
        t = breaks(rt, t, family, row, must, &bytes[0..n]);
    }
    t
}

fn load_or(pool: &mut [u32], row: &[u8], bytes: &[u8]) -> Got {
    match calls::letter(row) {
        b't' | b'b' => calls::answer(setfile::load(pool, taken(row, 1), bytes)),
        _ => calls::call(pool, row),
    }
}

// An answer of compare as the words of a row: which file alone holds the address, and the address; or which of the others it is.
fn matched(c: Result<Compared, Refusal>) -> Got {
    match c {
        Ok(Compared::Differs(h, n)) => {
            let second = Word {
                form: n.family,
                hi: n.hi,
                lo: n.lo,
            };
            let first = match h {
                Holder::First => named(b'f'),
                Holder::Second => named(b'o'),
            };
            Got { first, second }
        }
        Ok(Compared::Longer) => Got {
            first: named(b'l'),
            second: number(0),
        },
        Ok(Compared::Shortest) => Got {
            first: named(b's'),
            second: number(0),
        },
        Err(no) => calls::refusal(no),
    }
}

// Two files, the first of so many bytes.
fn matches(rt: &impl Print, t: Tally, row: &[u8], must: &[u8], bytes: &[u8], n: usize) -> Tally {
    if bytes.len() < n {
        return tell(rt, t, row, must, false);
    }
    calls::score(
        rt,
        t,
        row,
        must,
        matched(compare(&bytes[0..n], &bytes[n..])),
    )
}

// A row of one call, which may change the pool.
fn call(
    rt: &impl Print,
    t: Tally,
    pool: &mut [u32; WORDS],
    row: &[u8],
    must: &[u8],
    bytes: &[u8],
) -> Tally {
    let was = *pool;
    let got = load_or(pool, row, bytes);
    let t = calls::score(rt, t, row, must, got);
    calls::keeps(rt, t, row, must, &was, pool)
}

// The row, by its first letter: several cases, but for the calls.
fn with_file(
    rt: &impl Print,
    t: Tally,
    pool: &mut [u32; WORDS],
    row: &[u8],
    must: &[u8],
    bytes: &[u8],
) -> Tally {
    let n = taken(row, 1);
    match calls::letter(row) {
        b'g' => saves(rt, t, pool, row, must, bytes),
        b'd' => denies(
            rt,
            t,
            pool,
            n,
            taken(row, 2) as usize,
            row,
            must,
            number_of(must),
        ),
        b'o' => breaks(rt, t, (n % 256) as u8, row, must, bytes),
        b'c' => cuts(rt, t, (n % 256) as u8, row, must, bytes),
        b'e' => matches(rt, t, row, must, bytes, n as usize),
        b'm' => salvaging::mend(rt, t, row, must, bytes),
        b'b' => {
            let t = call(rt, t, pool, row, must, bytes);
            saves(rt, t, pool, row, must, bytes)
        }
        _ => call(rt, t, pool, row, must, bytes),
    }
}

// The row, with a file of so many of the bytes.
pub fn run(
    rt: &impl Print,
    t: Tally,
    pool: &mut [u32; WORDS],
    row: &[u8],
    must: &[u8],
    all: &[u8; ROOM],
    n: usize,
) -> Tally {
    let bytes: &[u8] = all;
    if bytes.len() < n {
        return t;
    }
    with_file(rt, t, pool, row, must, &bytes[0..n])
}
