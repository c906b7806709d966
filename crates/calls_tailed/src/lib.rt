// The calls of docs/CALLS.md that carry more than a record: a set read from the tail of the call, or a tail of the answer.
pub mod reading;
pub mod tailed;
