// The calls that read networks from their tail: a set file, the last address of a range, lines, or two files.
ghost use Rattle.std.specs.Prelude.{◌≡◌, ◌≤◌, length};
ghost use Rattle.calls_tailed.specs.Reading.{span_by, load_of, lines_of, reader_reply, compare_of, Cut};

use calls_bytes::bytes::u64_at;
use calls_bytes::records::CALL;
use calls_bytes::{Call, Reply, table};
use calls_replies::{of_answer, of_compared};
use change_many::{Span, span_of};
use lines::Reader;
use nets::Net;

// The range from the address of the network to the one in front of the tail.
fn span_by(c: Call, s: &[u8]) -> Span
    ensures { result ≡ span_by c s.now }
{
    let net = c.net;
    span_of(
        net.family,
        net.hi,
        net.lo,
        u64_at(s, CALL),
        u64_at(s, CALL + 8),
    )
}

// Changes a set by the tail, by the code; loading its file is the one that is left.
pub fn load(pool: &mut [u32], c: Call, s: &[u8]) -> Reply
    requires { 35 ≤ length s.now }
    ensures { (result, pool.new) ≡ load_of pool.old c s.now }
{
    let code = c.code;
    match code {
        table::ADD_RANGE => of_answer(change_many::add_range(pool, c.a, span_by(c, s))),
        table::ADD_FILE => of_answer(change_many::add_file(pool, c.a, &s[CALL..])),
        table::REMOVE_FILE => of_answer(change_many::remove_file(pool, c.a, &s[CALL..])),
        _ => of_answer(setfile::load(pool, c.a, &s[CALL..])),
    }
}

// Where the second piece of the tail begins: so many bytes in, or at its end.
fn cut_of(s: &[u8], b: u32) -> usize
    requires { 35 ≤ length s.now }
    ensures { Cut s.now b result }
{
    let first = b as usize;
    if s.len() - CALL < first {
        return s.len();
    }
    CALL + first
}

// Compares the two files of the tail, of which the first has so many bytes.
pub fn compare(c: Call, s: &[u8]) -> Reply
    requires { 35 ≤ length s.now }
    ensures { result ≡ compare_of c s.now }
{
    let cut = cut_of(s, c.a);
    of_compared(setfile_compare::compare(&s[CALL..cut], &s[cut..]))
}

// Where a reading has come to. A reader keeps at most 50 bytes, so their number fits.
fn of_reader(r: Reader) -> Reply
    requires { r.len ≤ 50 }
    ensures { result ≡ reader_reply r }
{
    Reply {
        no: r.no,
        flag: false,
        x: (r.number % 4294967296) as u32,
        y: r.len as u32,
        net: Net {
            family: 0,
            hi: 0,
            lo: r.trimmed,
            len: 0,
        },
    }
}

// Adds the networks of the tail's lines, which come in two pieces.
pub fn lines(pool: &mut [u32], c: Call, s: &[u8]) -> Reply
    requires { 35 ≤ length s.now }
    ensures { (result, pool.new) ≡ lines_of pool.old c s.now }
{
    let cut = cut_of(s, c.b);
    let first = lines::feed(pool, lines::start(), &s[CALL..cut]);
    let second = lines::feed(pool, first, &s[cut..]);
    of_reader(lines::finish(pool, second))
}
