// Comparing two set files: whether they cover the same addresses, and whether the second is the shortest that does.
ghost use Rattle.std.specs.Prelude.{◌≡◌};
ghost use Rattle.setfile_format.specs.Files.{read_file};
ghost use Rattle.setfile_compare.specs.Comparing.{compared_as, compared};

use abreast::side_by_side;
use nets::{Net, Refusal};
use setfile_order::check;

mod abreast;

// One of the two files.
#[derive(Debug, Clone, Copy, PartialEq, Eq)]
pub enum Holder {
    First,
    Second,
}

// They differ, at this address first, which this file holds; they cover the same, and the second is longer than it need be; or it is the shortest.
#[derive(Debug, Clone, Copy, PartialEq, Eq)]
pub enum Compared {
    Differs(Holder, Net),
    Longer,
    Shortest,
}

// Compares the lists of two set files of one family.
pub fn compare(first: &[u8], second: &[u8]) -> Result<Compared, Refusal>
    ensures { compared_as result ≡ compared (read_file first.now) (read_file second.now) }
{
    let x = check(first);
    let Some((family, _)) = x else {
        return Err(Refusal::BadFile);
    };
    let y = check(second);
    let Some((other, _)) = y else {
        return Err(Refusal::BadFile);
    };
    if family != other {
        return Err(Refusal::WrongFamily);
    }
    Ok(side_by_side(first, second, family))
}
