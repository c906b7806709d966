// Many networks into a set or out of it as one change: those of a set file, or of a range of addresses. The pool is checked once, the result is judged as a whole, and where a call is
// refused no word changes.
ghost use Rattle.std.specs.Prelude.{◌≡◌};
ghost use Rattle.pool_state.specs.Rules.{answer_as};
ghost use Rattle.change_many.specs.Calls.{span_words, FileAdded, FileRemoved, RangeAdded};

use asking::{ask_file, ask_span};
use nets::Refusal;
use pouring::{pour_found, pour_into};
use ranges::addresses::Address;
use setfile_range::{BYTES, range_file};

mod asking;
mod by_form;
mod pouring;

// A range of addresses of a family, from its first to its last.
#[derive(Clone, Copy)]
pub struct Span {
    pub family: u8,
    pub first: Address,
    pub last: Address,
}

// The range of a family from one address in two words to another.
pub fn span_of(family: u8, first_hi: u64, first_lo: u64, last_hi: u64, last_lo: u64) -> Span
    ensures { result ≡ span_words family first_hi first_lo last_hi last_lo }
{
    let first = Address {
        hi: first_hi,
        lo: first_lo,
    };
    let last = Address {
        hi: last_hi,
        lo: last_lo,
    };
    Span {
        family,
        first,
        last,
    }
}

// Adds the networks of a set file to a set, as adding them one by one would. Answers the nodes of the set.
pub fn add_file(pool: &mut [u32], set: u32, bytes: &[u8]) -> Result<u32, Refusal>
    ensures { FileAdded pool.old set bytes.now (answer_as result) pool.new }
{
    let (found, family) = ask_file(pool, set, bytes)?;
    pour_into(pool, set, found, bytes, family)
}

// Removes the networks of a set file from a set, as removing them one by one would. Answers the nodes of the set. What is left of a public-only set is clear of the inner networks, as it was.
pub fn remove_file(pool: &mut [u32], set: u32, bytes: &[u8]) -> Result<u32, Refusal>
    ensures { FileRemoved pool.old set bytes.now (answer_as result) pool.new }
{
    let (found, family) = ask_file(pool, set, bytes)?;
    pour_found(pool, set, found, bytes, family, false, true)
}

// Adds a range of addresses to a set: the fewest networks that have exactly these addresses, as adding them one by one would. Answers the nodes of the set.
pub fn add_range(pool: &mut [u32], set: u32, span: Span) -> Result<u32, Refusal>
    ensures { RangeAdded pool.old set span (answer_as result) pool.new }
{
    let found = ask_span(pool, set, span)?;
    let mut local = [0u8; BYTES];
    let n = range_file(span.family, span.first, span.last, &mut local);
    pour_into(pool, set, found, &local[..n], span.family)
}
