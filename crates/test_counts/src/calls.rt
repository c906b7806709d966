// The calls on a pool that rows of several programs make, and answers held to the words of a row.
ghost use Rattle.std.specs.Prelude.{◌<◌, ◌≡◌, ◌↔◌, IsTrue, IsErrAnd};
ghost use Rattle.nets.specs.Refusals.{number};

use crate::table::{NAME, Word, number, word_at};
use crate::{Tally, count, same};
use nets::{Net, Refusal};

// What a call answers, as the first two words behind the sign =: numbers, the name `refused` and its number, or a network. Of add and
// remove the second is the name `cut` where a set bit past the length was cut.
#[derive(Clone, Copy, Debug, PartialEq, Eq)]
pub struct Got {
    pub first: Word,
    pub second: Word,
}

pub fn numbers(n: u64, m: u64) -> Got {
    let first = number(n);
    let second = number(m);
    Got { first, second }
}

// The name with this first letter.
pub fn named(letter: u8) -> Word {
    Word {
        form: NAME,
        hi: 0,
        lo: letter as u64,
    }
}

pub fn refusal(no: Refusal) -> Got {
    let first = named(b'r');
    let second = number(no.number() as u64);
    Got { first, second }
}

// Whether the call is refused with this number.
pub fn refuses<T: Copy>(a: Result<T, Refusal>, no: u32) -> bool
    ensures { IsTrue result ↔ IsErrAnd a (λ r. number r ≡ no) }
{
    match a {
        Ok(_) => false,
        Err(refusal) => refusal.number() as u32 == no,
    }
}

pub fn answer(a: Result<u32, Refusal>) -> Got {
    a.map_or_else(refusal, |n| numbers(n as u64, 0))
}

fn mark(cut: bool) -> Word {
    if cut {
        return named(b'c');
    }
    number(0)
}

fn noted(a: Result<(u32, bool), Refusal>) -> Got {
    match a {
        Ok((n, cut)) => Got {
            first: number(n as u64),
            second: mark(cut),
        },
        Err(no) => refusal(no),
    }
}

fn report(r: Result<(u32, u32), Refusal>) -> Got {
    r.map_or_else(refusal, |(n, k)| numbers(n as u64, k as u64))
}

// The number at a place of the row, cut to 32 bits.
pub fn taken(row: &[u8], place: usize) -> u32 {
    (word_at(row, place).lo % 0x1_0000_0000) as u32
}

// The first letter of the name that the row begins with.
pub fn letter(row: &[u8]) -> u8 {
    (word_at(row, 0).lo % 256) as u8
}

// The network whose address stands behind the call and the set.
pub fn net(row: &[u8]) -> Net {
    let w = word_at(row, 2);
    Net {
        family: w.form,
        hi: w.hi,
        lo: w.lo,
        len: (taken(row, 3) % 256) as u8,
    }
}

// Every other one of six numbers of the row.
fn three(row: &[u8], place: usize) -> [u32; 3]
    requires { place < 9 }
{
    [
        taken(row, place),
        taken(row, place + 2),
        taken(row, place + 4),
    ]
}

// Lays out for a family, one to three sets and so many nodes, with a share and a limit for each set; behind three of these may stand the marks of the indexed sets, and
// behind these the form.
fn lay(pool: &mut [u32], row: &[u8]) -> Result<u32, Refusal> {
    let family = (taken(row, 1) % 256) as u8;
    let sets = taken(row, 2);
    let shares = three(row, 4);
    let limits = three(row, 5);
    let indexed = taken(row, 10) as u64;
    let form = taken(row, 11);
    if sets > 3 {
        return Err(Refusal::BadSetup);
    }
    let n = sets as usize;
    pool::layout(
        pool,
        family,
        form,
        sets,
        taken(row, 3),
        &shares[0..n],
        &limits[0..n],
        indexed,
    )
}

fn layout(pool: &mut [u32], row: &[u8]) -> Got {
    pool.fill(0);
    answer(lay(pool, row))
}

// Damages a pool: the word at the first number becomes the second.
fn damage(pool: &mut [u32], row: &[u8]) -> Got {
    let at = taken(row, 1) as usize;
    if at < pool.len() {
        pool[at] = taken(row, 2);
        return numbers(0, 0);
    }
    numbers(0, 0)
}

// The call that the row begins with, by its first letter.
pub fn call(pool: &mut [u32], row: &[u8]) -> Got {
    let set = taken(row, 1);
    match letter(row) {
        b'l' => layout(pool, row),
        b'a' => noted(change::add(pool, set, net(row))),
        b'r' => noted(change::remove(pool, set, net(row))),
        b's' => answer(change::simplify(pool, set)),
        b'f' => answer(pool::free(pool)),
        b'h' => report(pool::held(pool, set)),
        b'w' => damage(pool, row),
        _ => numbers(0, 0),
    }
}

// One case more; where it came out wrong its row is written. Where that fails the line that counts the cases is not written either.
pub fn tell(rt: &impl Print, t: Tally, row: &[u8], must: &[u8], right: bool) -> Tally {
    if !right {
        let _ = rt.write_all(b"wrong: ");
        let _ = rt.write_all(row);
        let _ = rt.write_all(must);
        let _ = rt.write_all(b"\n");
    }
    count(t, right)
}

// Where the row is a case, what it must answer is held to this answer.
pub fn score(rt: &impl Print, t: Tally, row: &[u8], must: &[u8], got: Got) -> Tally {
    if must.len() == 0 {
        return t;
    }
    let wanted = Got {
        first: word_at(must, 0),
        second: word_at(must, 1),
    };
    tell(rt, t, row, must, got == wanted)
}

// Where `kept` stands behind a refusal: another case, that the call left every word.
pub fn keeps(
    rt: &impl Print,
    t: Tally,
    row: &[u8],
    must: &[u8],
    was: &[u32],
    pool: &[u32],
) -> Tally {
    if word_at(must, 2) != named(b'k') {
        return t;
    }
    tell(rt, t, row, must, same(was, pool))
}
