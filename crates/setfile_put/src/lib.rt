// Numbers and entries of a set file as bytes.
pub mod writing;
