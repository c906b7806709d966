// What is told of a place of a list.
ghost use Rattle.std.specs.Prelude.{◌≡◌};
ghost use Rattle.listing.specs.Calls.{follower_as};
ghost use Rattle.walk_turns.specs.Turns.{IsNo, told_of};

use nets::{Net, Refusal};

// What is answered where a network is there or not, by the number of the walk.
pub fn told(there: bool, net: Net, no: u8) -> Result<Option<Net>, Refusal>
    ensures { IsNo no → follower_as result ≡ told_of there net no }
{
    if no == 2 {
        return Err(Refusal::Damaged);
    }
    if no == 3 {
        return Err(Refusal::NoSet);
    }
    if there {
        return Ok(Some(net));
    }
    Ok(None)
}
