// Decimal numbers in bytes, in and out, and places in a line: what every line of text is read and written with.
pub mod cursor;
pub mod decimal;
