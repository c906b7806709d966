// One line of a network, added to set 0 of a pool.
ghost use Rattle.lines_reader.specs.Kept.{kept};
ghost use Rattle.pool_state.specs.Steps.{Surveyed};
ghost use Rattle.lines_take.specs.Taking.{Takes};

use change_add::add_found;
use lines_reader::{KEPT, Reader};
use nets::Refusal;
use pool_state::Survey;

// A reading under way: the reader, and what a pass over the pool finds as it is now. One pass at the start of a call serves all its lines.
#[derive(Clone, Copy)]
pub struct Going {
    pub reader: Reader,
    pub found: Survey,
}

// What became of a line: what a pass over the pool finds then, or its refusal; and whether a set bit was cut.
#[derive(Clone, Copy)]
pub struct Took {
    pub then: Result<Survey, Refusal>,
    pub cut: bool,
}

// Adds the network of a line, unless it is refused.
fn take(pool: &mut [u32], found: Survey, line: &[u8]) -> Took
    requires { Surveyed pool.old 0 found }
    ensures { Takes pool.old line.now result pool.new }
{
    match text_either::read_line(line) {
        Err(no) => Took {
            then: Err(no),
            cut: false,
        },
        Ok((net, cut)) => {
            let then = add_found(pool, 0, found, net);
            Took { then, cut }
        }
    }
}

// Adds the network of the line that is kept, unless it is refused.
pub fn take_kept(pool: &mut [u32], g: Going) -> Took
    requires { Surveyed pool.old 0 g.found }
    ensures { Takes pool.old (kept g.reader) result pool.new }
{
    let line = g.reader.line;
    let len = g.reader.len;
    if len < KEPT {
        return take(pool, g.found, &line[..len]);
    }
    take(pool, g.found, &line)
}
