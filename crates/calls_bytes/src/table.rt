// The codes of the calls.
pub const LAYOUT: u8 = 1;

pub const FREE: u8 = 2;

pub const HELD: u8 = 3;

pub const PLAN: u8 = 4;

pub const SUPERNET: u8 = 5;

pub const CONTAINS: u8 = 6;

pub const IS_EMPTY: u8 = 7;

pub const ADD: u8 = 8;

pub const REMOVE: u8 = 9;

pub const SIMPLIFY: u8 = 10;

pub const MERGE: u8 = 11;

pub const INTERSECT: u8 = 12;

pub const EXCLUDE_APART: u8 = 13;

pub const EQUAL: u8 = 14;

pub const LIST: u8 = 15;

pub const NEXT: u8 = 16;

pub const READ_LINE: u8 = 17;

pub const WRITE_LINE: u8 = 18;

pub const SAVE: u8 = 19;

pub const LOAD: u8 = 20;

pub const LINES: u8 = 21;

pub const NTH: u8 = 22;

pub const LAST: u8 = 23;

pub const PAGE: u8 = 24;

pub const EXCLUDE: u8 = 25;

pub const REPLAN: u8 = 26;

pub const MAKE_PUBLIC: u8 = 27;

pub const RANGES: u8 = 28;

pub const ADD_RANGE: u8 = 29;

pub const ADD_FILE: u8 = 30;

pub const REMOVE_FILE: u8 = 31;

pub const NEW: u8 = 32;

pub const TO_NETWORK: u8 = 33;

pub const WITH_NEW_PREFIX: u8 = 34;

pub const PREFIX_BITS: u8 = 35;

pub const NEXT_BIT: u8 = 36;

pub const OCTETS: u8 = 37;

pub const BYTES: u8 = 38;

pub const GROUPS: u8 = 39;

pub const WORDS: u8 = 40;

pub const READ_LINE_6: u8 = 41;

pub const READ_LINE_EITHER: u8 = 42;

pub const SALVAGE: u8 = 43;

pub const COMPARE: u8 = 44;

pub const WRITE_WORDS: u8 = 48;

pub const READ_WORDS: u8 = 49;
