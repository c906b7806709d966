// Many lookups in one call: whether a member of a set contains each query of a row. It reads what contains reads for each of them, and no more; walks go down
// side by side, so that one does not wait for the memory of another.
ghost use Rattle.lookup_many.specs.Rules.{ContainsAll};

use asking::one_by_one;
use blocks::by_blocks;
use lookup::walking::root;
use nets::Refusal;
use pool_header::FAMILY;

mod asking;
mod blocks;

// Writes for each query of a row what contains answers, in one number. A query is three numbers, as list writes them: high word, low word, length; the family is that
// of all of them. What is left of the row behind its whole queries is not read, entries of the answers past them keep what they had, and a refusal writes nothing.
pub fn contains_all(
    pool: &[u32],
    set: u32,
    family: u8,
    queries: &[u64],
    answers: &mut [u64],
) -> Result<u32, Refusal>
    ensures { ContainsAll pool.now set family queries.now answers.old result answers.new }
{
    root(pool, set)?;
    if family as u32 != pool[FAMILY] {
        return Err(Refusal::WrongFamily);
    }
    if answers.len() < queries.len() / 3 {
        return Err(Refusal::ShortBuffer);
    }
    let done = by_blocks(pool, set, family, queries, answers);
    one_by_one(pool, set, family, queries, done, answers);
    Ok(0)
}
