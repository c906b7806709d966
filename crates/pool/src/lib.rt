// The pool: up to 64 sets of networks in one lent slice of words. docs/LAYOUT.md has every word.
ghost use Rattle.std.specs.Prelude.{◌≡◌, length};
ghost use Rattle.pool_state.specs.States.{State};
ghost use Rattle.pool_state.specs.Decode.{sound, decode};
ghost use Rattle.pool_state.specs.Changes.{list_at};
ghost use Rattle.pool_state.specs.Steps.{Surveyed};
ghost use Rattle.pool_state.specs.Rules.{answer_as, report_as, setup, Laid, free_rule, held_rule, plan_rule};
ghost use Rattle.pool.specs.Words.{words_rule};

use nets::Refusal;
use nodes::reading::zeros_at;
use pool_check::seats::{seat_in, seat_of};
use pool_check::survey;
use pool_header::{FORM, HEAD, LIMIT, NODES, RECORD, SHARE, is_size, least_words};
use pool_state::Survey;
pub use pool_state::{Answer, Report, Told};

mod laying;

// How many words a pool of so many sets and nodes needs, of which so many sets are indexed.
pub fn words(sets: u32, nodes: u32, indexed: u32) -> Result<u32, Refusal>
    ensures { answer_as result ≡ words_rule sets nodes indexed }
{
    if !is_size(sets, nodes) {
        return Err(Refusal::BadSetup);
    }
    if sets < indexed {
        return Err(Refusal::BadSetup);
    }
    Ok(least_words(sets, nodes, indexed) as u32)
}

// Lays out a pool of empty sets in the lent words, a share and a limit for each set; bit s of `indexed` says whether set s is indexed by its networks' first eight
// bits. A refusal changes no word, and no word past the smallest buffer is touched.
pub fn layout(
    pool: &mut [u32],
    family: u8,
    form: u32,
    sets: u32,
    nodes: u32,
    shares: &[u32],
    limits: &[u32],
    indexed: u64,
) -> Result<u32, Refusal>
    ensures { Laid pool.old (setup family form sets nodes shares.now limits.now indexed) (answer_as result) pool.new }
{
    if !laying::is_setup(
        pool.len(),
        family,
        form,
        sets,
        nodes,
        shares,
        limits,
        indexed,
    ) {
        return Err(Refusal::BadSetup);
    }
    laying::clear(
        pool,
        least_words(sets, nodes, laying::count_marks(sets, indexed)),
    );
    laying::header(pool, family, form, sets, nodes);
    laying::records(pool, shares, limits);
    laying::indexes(pool, least_words(sets, nodes, 0), sets, indexed);
    Ok(0)
}

// The free nodes of a pool.
pub fn free(pool: &[u32]) -> Result<u32, Refusal>
    ensures { answer_as result ≡ free_rule (decode pool.now) }
{
    let seen = survey(pool, 0);
    let Some(found) = seen else {
        return Err(Refusal::Damaged);
    };
    Ok(pool[NODES] - found.used)
}

// The networks of a surveyed set: the leaves of its trie, or in the second form one more than the branch points.
fn networks(pool: &[u32], set: u32, found: Survey) -> u32
    requires { Surveyed pool.now set found }
    ensures { (S : State) → decode pool.now ≡ sound S → result ≡ length (list_at S set) }
{
    if pool[FORM] == 0 {
        let seat = seat_in(pool, found);
        return zeros_at(pool, seat.base + (seat.first - 1), found.held);
    }
    (found.held + 1) / 2
}

// The nodes and the networks of a set.
pub fn held(pool: &[u32], set: u32) -> Result<(u32, u32), Refusal>
    ensures { report_as result ≡ held_rule (decode pool.now) set }
{
    let (found, _) = seat_of(pool, set)?;
    let n = networks(pool, set, found);
    Ok((found.held, n))
}

// The share and the limit of a set.
pub fn plan(pool: &[u32], set: u32) -> Result<(u32, u32), Refusal>
    ensures { report_as result ≡ plan_rule (decode pool.now) set }
{
    let (_, _) = seat_of(pool, set)?;
    let record = HEAD + RECORD * (set as usize);
    Ok((pool[record + SHARE], pool[record + LIMIT]))
}
