// Groups of an IPv6 address: a group or a quad, and as many as are joined by colons.
pub mod pieces;
pub mod runs;
