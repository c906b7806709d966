// The line that is being read, byte by byte: before the first, some more, and the end of the reading. No pool.
ghost use Rattle.std.specs.Prelude.{cond, ◌≡◌};
ghost use Rattle.lines_reader.specs.Kept.{begun, pushed_all, stopped};

use nets::Refusal;

// The bytes kept of a line: one more than the longest line of a network of either family has, so that a line too long for one is still too long here.
pub const KEPT: usize = 50;

// The line that is being read: its bytes so far, how many, its number from 1 on; how many lines before it were trimmed, a set bit past the length being cut; and the
// refusal that ended the reading, or 0. That stays a number: `feed` and `finish` take any, and an Option of a refusal would take fewer.
#[derive(Clone, Copy)]
pub struct Reader {
    pub line: [u8; KEPT],
    pub len: usize,
    pub number: u64,
    pub trimmed: u64,
    pub no: u8,
}

// Before the first byte.
pub fn start() -> Reader
    ensures { result ≡ begun }
{
    Reader {
        line: [0; KEPT],
        len: 0,
        number: 1,
        trimmed: 0,
        no: 0,
    }
}

// More bytes of the line. There is no place for one that is past those kept. They are stored where the reader stands, which is moved once.
pub fn push_all(mut r: Reader, part: &[u8]) -> Reader
    ensures { result ≡ pushed_all r part.now }
{
    let mut at = r.len;
    for &b in part {
        if KEPT <= at {
            break;
        }
        r.line[at] = b;
        at += 1;
    }
    r.len = at;
    r
}

// The pool is damaged: the reading ends.
pub fn damaged(mut r: Reader) -> Reader
    ensures { result ≡ stopped r 2 }
{
    r.no = Refusal::Damaged.number();
    r
}

pub fn one_if(cut: bool) -> u64
    ensures { result ≡ cond cut 1 0 }
{
    u64::from(cut)
}
