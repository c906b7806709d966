// Set files: a set into bytes, and bytes into a set. Each call checks the pool in one pass.
ghost use Rattle.pool_state.specs.Rules.{answer_as};
ghost use Rattle.setfile.specs.Loading.{Loaded};

pub use loading::is_admitted;
use loading::{ask, write};
use nets::Refusal;
use pool_change::judging::judge;
use pool_change::relinking::granted;
pub use setfile_save::save;

mod loading;

// Gives an empty set the list of a file, and answers its nodes. A refusal changes no word.
pub fn load(pool: &mut [u32], set: u32, bytes: &[u8]) -> Result<u32, Refusal>
    ensures { Loaded pool.old set bytes.now (answer_as result) pool.new }
{
    let (v, family, n) = ask(pool, set, bytes)?;
    let clear = is_admitted(pool, set, v, bytes, family);
    judge(pool, set, v, clear, n)?;
    write(pool, v, bytes, family, n);
    granted(pool, set, v, n)
}
