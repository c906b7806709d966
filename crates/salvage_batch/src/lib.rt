// What is left of the entries of a file, in batches: bounded memory, and one pass over the entries for each batch. Each function asks in its contract what makes it safe.
use nets::Net;

pub mod gathering;
mod holding;
pub mod order;
pub mod squeezing;

// How many entries are held, and the network behind whose end none is, where there is such a bound.
#[derive(Clone, Copy)]
pub struct Hold {
    pub count: usize,
    pub edge: Option<Net>,
}

// How many networks a batch has, and whether there may be more behind it.
#[derive(Clone, Copy)]
pub struct Batch {
    pub count: usize,
    pub more: bool,
}
