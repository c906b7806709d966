// The passes of a salvage over the entries of a file: what is left is counted, and written in address order.
pub mod counting;
pub mod filling;
