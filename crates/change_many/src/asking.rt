// What these calls ask first.
ghost use Rattle.std.specs.Prelude.{◌≡◌, ◌^◌, ltb};
ghost use Rattle.nets.specs.Networks.{width};
ghost use Rattle.ranges.specs.Addresses.{address_of};
ghost use Rattle.change_many.specs.Calls.{is_span, range_of};
ghost use Rattle.change_many.specs.Steps.{AsksFile, AsksSpan};

use crate::Span;
use nets::{IPV4, Refusal};
use pool_check::seats::seat_of;
use pool_state::Survey;
use ranges::addresses::Address;
use setfile_order::check;

// The pool is sound, the set is there, and the file keeps its rules and is of the pool's family.
pub fn ask_file(pool: &[u32], set: u32, bytes: &[u8]) -> Result<(Survey, u8), Refusal>
    ensures { AsksFile pool.now set bytes.now result }
{
    let (found, seat) = seat_of(pool, set)?;
    let Some((family, _)) = check(bytes) else {
        return Err(Refusal::BadFile);
    };
    if family != seat.family {
        return Err(Refusal::WrongFamily);
    }
    Ok((found, family))
}

// Whether an address is within the family's width.
fn in_width(family: u8, a: Address) -> bool
    ensures { result ≡ ltb (address_of a) (2 ^ width family) }
{
    if family != IPV4 {
        return true;
    }
    (a.hi, a.lo) < (0, 0x1_0000_0000)
}

// Whether both ends of a range are addresses of its family.
fn is_span(s: Span) -> bool
    ensures { result ≡ is_span s }
{
    if !in_width(s.family, s.first) {
        return false;
    }
    in_width(s.family, s.last)
}

// Whether the first address of a range is above its last.
fn is_backward(s: Span) -> bool
    ensures { result ≡ ltb (range_of s).last (range_of s).first }
{
    let a = s.first;
    let b = s.last;
    (b.hi, b.lo) < (a.hi, a.lo)
}

// The pool is sound, the set is there, and the range is one of the pool's family whose first address is not above its last.
pub fn ask_span(pool: &[u32], set: u32, s: Span) -> Result<Survey, Refusal>
    ensures { AsksSpan pool.now set s result }
{
    let (found, seat) = seat_of(pool, set)?;
    if s.family != seat.family {
        return Err(Refusal::WrongFamily);
    }
    if !is_span(s) {
        return Err(Refusal::BadNetwork);
    }
    if is_backward(s) {
        return Err(Refusal::BadRange);
    }
    Ok(found)
}
