// Reading a node of the second form, and comparing the strings of nodes.
pub mod reading;
pub mod strings;
