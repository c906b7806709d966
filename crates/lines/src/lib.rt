// Lines of networks of either family, added to set 0 of a pool. The input comes in pieces of any length: start, then feed with each piece, then finish.
ghost use Rattle.std.specs.Prelude.{◌≡◌};
ghost use Rattle.pool_state.specs.Steps.{Surveyed};
ghost use Rattle.lines.specs.Reading.{ended, passed, fed, finished};
ghost use Rattle.lines.specs.Steps.{Leads};

pub use lines_reader::{Reader, start};
use lines_reader::{damaged, one_if, push_all};
use lines_take::{Going, take_kept};
use pool_check::survey;
use text_either::first;

// The line has ended: its network is added and the next line begins, or the reading ends here.
fn end(pool: &mut [u32], g: Going) -> Going
    requires { Surveyed pool.old 0 g.found }
    ensures { Leads (ended pool.old g.reader) result pool.new }
{
    let took = take_kept(pool, g);
    let mut reader = g.reader;
    match took.then {
        Err(no) => {
            reader.no = no.number();
            Going {
                reader,
                found: g.found,
            }
        }
        Ok(found) => {
            reader.no = 0;
            reader.len = 0;
            reader.number = std::num::wrapping_add_u64(reader.number, 1);
            reader.trimmed = std::num::wrapping_add_u64(reader.trimmed, one_if(took.cut));
            Going { reader, found }
        }
    }
}

// The bytes of a piece, up to the first line that is refused. A turn takes what is left of a line, so that the reader is moved once for it.
fn pass(pool: &mut [u32], g: Going, piece: &[u8]) -> Reader
    requires { Surveyed pool.old 0 g.found }
    ensures { (result, pool.new) ≡ passed pool.old g.reader piece.now }
{
    let mut g = g;
    let mut i = 0;
    while g.reader.no == 0 {
        let to = i + first::end(&piece[i..]);
        let reader = push_all(g.reader, &piece[i..to]);
        if to == piece.len() {
            return reader;
        }
        let found = g.found;
        g = end(pool, Going { reader, found });
        i = to + 1;
    }
    g.reader
}

// A piece of the input, up to the first line that is refused. A pool that is damaged ends the reading before any byte.
pub fn feed(pool: &mut [u32], r: Reader, piece: &[u8]) -> Reader
    ensures { (result, pool.new) ≡ fed pool.old r piece.now }
{
    if r.no != 0 {
        return r;
    }
    let seen = survey(pool, 0);
    let Some(found) = seen else {
        return damaged(r);
    };
    pass(pool, Going { reader: r, found }, piece)
}

// The end of the input ends a line that lacks its line feed.
pub fn finish(pool: &mut [u32], r: Reader) -> Reader
    ensures { (result, pool.new) ≡ finished pool.old r }
{
    if r.no != 0 {
        return r;
    }
    let seen = survey(pool, 0);
    let Some(found) = seen else {
        return damaged(r);
    };
    if r.len == 0 {
        return r;
    }
    let g = end(pool, Going { reader: r, found });
    g.reader
}
