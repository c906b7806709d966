// What a pool is: its state, the words that hold it and the rules of its calls stand in specs/, their laws in proofs/. Here is what the calls answer, and what one pass over a pool finds out.
use nets::Refusal;
use nodes::seats::Seat;

// What a changing call answers: the nodes of its result.
pub type Answer = Result<u32, Refusal>;

// What a question about sets is answered.
pub type Told = Result<bool, Refusal>;

// Two numbers of a set: its nodes and its networks, or its share and its limit.
pub type Report = Result<(u32, u32), Refusal>;

// What one pass over a sound pool finds out for the calls on one set.
#[derive(Clone, Copy)]
pub struct Survey {
    pub used: u32,
    pub claimed: u32,
    pub at: u32,
    pub held: u32,
}
