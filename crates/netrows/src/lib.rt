// The list of a set in a lent row of networks, each with its family, its words and its length.
#![tactic(auto)]

ghost use Rattle.netrows.specs.Rows.{blank, Listed};

use listing::seated::{count, go_on};
use nets::{Net, Refusal};
use pool_check::seats::seat_of;
use trie_spots::spots::before_all;

// Writes the networks of a set in list order and answers how many there are. Entries past them keep what they had, and a refusal writes nothing.
pub fn list(pool: &[u32], set: u32, nets: &mut [Net]) -> Result<u32, Refusal>
    ensures { Listed pool.now set nets.old result nets.new }
{
    let (_, seat) = seat_of(pool, set)?;
    let n = count(pool, seat);
    if nets.len() < n {
        return Err(Refusal::ShortBuffer);
    }
    let mut spot = before_all(seat);
    for at in 0..n {
        spot = go_on(pool, spot);
        nets[at] = spot.net;
    }
    Ok(n as u32)
}

// What a listing into a page of 16 entries answers, and the page.
#[derive(Clone, Copy)]
pub struct Page {
    pub answer: Result<u32, Refusal>,
    pub nets: [Net; 16],
}

// The networks of a set on a page of zeros; whoever calls this needs no walk.
pub fn page_of(pool: &[u32], set: u32) -> Page
    ensures { Listed pool.now set blank result.answer result.nets }
{
    let none = Net {
        family: 0,
        hi: 0,
        lo: 0,
        len: 0,
    };
    let mut nets = [none; 16];
    let answer = list(pool, set, &mut nets[..]);
    Page { answer, nets }
}
