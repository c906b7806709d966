// One of two files that are gone through side by side, in address order, and addresses in words.
pub mod sides;
pub mod words;
