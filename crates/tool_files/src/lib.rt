// What the programs share of files: by name, read and written whole, and messages on standard error. What is read and written no contract can say: each
// function is proved safe and ending.
#![tactic(auto)]

mod opening;
mod reading;
mod room;
mod saying;
mod source;
mod writing;

pub use crate::opening::{Opened, PATH, is_dash, open_source};
pub use crate::reading::read_full;
pub use crate::room::{BYTES, NODES, ROWS, WORDS};
pub use crate::saying::{say, say_failed, say_refused, say_refused_line};
pub use crate::source::{argument, has_one, has_two, read_source};
pub use crate::writing::write_file;
