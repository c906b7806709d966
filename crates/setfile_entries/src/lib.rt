// The header and the entries of a set file, in the order of the file. Each function asks in its contract that what it reads is there.
pub mod cleared;
pub mod reading;
