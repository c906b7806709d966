// A place as an argument.
ghost use Rattle.listing.specs.Places.{Places};

use nets::{Net, Refusal};
use nodes::seats::Seat;
use trie_spots::spots::{Spot, before_all};

// The spot in the list of the trie in a seat, or the refusal of the place's network. Its bits past the length are cut: the spot is at a network.
pub fn place_of(seat: Seat, from: Option<Net>) -> Result<Spot, Refusal>
    ensures { Places seat from result }
{
    let Some(net) = from else {
        return Ok(before_all(seat));
    };
    if net.family != seat.family {
        return Err(Refusal::WrongFamily);
    }
    let (n, _) = net.to_network()?;
    Ok(Spot {
        seat,
        begun: true,
        more: true,
        net: n,
    })
}
