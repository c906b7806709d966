// A call and its answer as bytes: docs/CALLS.md has every byte.
#![tactic(auto)]

use nets::Net;

pub mod bytes;
pub mod records;
pub mod table;
pub mod tails;

// The fixed part of a call; tail is how many bytes follow it.
#[derive(Clone, Copy, Debug, PartialEq, Eq)]
pub struct Call {
    pub code: u8,
    pub a: u32,
    pub b: u32,
    pub c: u32,
    pub net: Net,
    pub tail: u32,
}

// The fixed part of an answer.
#[derive(Clone, Copy, Debug, PartialEq, Eq)]
pub struct Reply {
    pub no: u8,
    pub flag: bool,
    pub x: u32,
    pub y: u32,
    pub net: Net,
}
