// A table of cases: the text that a program reads, a row a line, or several with a ; between them.
//
//     # Behind such a sign stands why the row is right.
//     add 0 10.0.0.0/8 = 9
//     load 0 "00000006 00000000 00000010 00000011" = refused 5 kept
//
// A row is a call, what it takes, and behind the sign = what it must answer; without that sign it is no case. Its words are names, of which the first
// letter counts, decimal numbers, and addresses, as four numbers or as eight groups in hexadecimal; a text in quotes is left to the program. All other
// bytes only stand between words.
ghost use Rattle.std.specs.Prelude.{◌≡◌, ◌++◌, IfSome, length};

use crate::{Tally, none};
use std::num::wrapping_add_u64;

// What a word is: a number, a name, of which the first letter counts, or with the number of its family an address.
pub const NUMBER: u8 = 0;

pub const NAME: u8 = 1;

#[derive(Clone, Copy, Debug, PartialEq, Eq)]
pub struct Word {
    pub form: u8,
    pub hi: u64,
    pub lo: u64,
}

// The word that is being read: how many words come before the one that is wanted, and whether that one has ended; what is known of it, and its last
// group of digits read both ways.
#[derive(Clone, Copy, Debug, PartialEq, Eq)]
struct Part {
    before: usize,
    ended: bool,
    begun: bool,
    form: u8,
    hi: u64,
    lo: u64,
    decimal: u64,
    hexadecimal: u64,
}

fn nothing(before: usize) -> Part {
    Part {
        before,
        ended: false,
        begun: false,
        form: NUMBER,
        hi: 0,
        lo: 0,
        decimal: 0,
        hexadecimal: 0,
    }
}

// The digit that a byte is, of the hexadecimal ones.
fn digit(c: u8) -> u64 {
    if c < b'a' {
        return (c % 16) as u64;
    }
    (c % 32) as u64 + 9
}

fn first(before: usize, c: u8) -> Part {
    let mut p = nothing(before);
    p.begun = true;
    p.decimal = digit(c);
    p.hexadecimal = digit(c);
    if c < b'a' {
        return p;
    }
    p.form = NAME;
    p.lo = c as u64;
    p
}

// The group joins the address.
fn joined(p: Part) -> Part {
    let mut p = p;
    if p.form == 4 {
        p.lo = p.lo % 0x1_0000_0000 * 256 + p.decimal % 0x1_0000_0000;
        p.decimal = 0;
        return p;
    }
    if p.form == 6 {
        p.hi = wrapping_add_u64(
            p.hi % 0x1_0000_0000_0000 * 0x1_0000,
            p.lo / 0x1_0000_0000_0000,
        );
        p.lo = wrapping_add_u64(
            p.lo % 0x1_0000_0000_0000 * 0x1_0000,
            p.hexadecimal % 0x1_0000,
        );
        p.hexadecimal = 0;
    }
    p
}

// A group has ended that makes the word an address of the family.
fn grouped(p: Part, family: u8) -> Part {
    let mut p = p;
    if p.form != family {
        p.form = family;
        p.lo = 0;
    }
    joined(p)
}

// The word with one byte more.
fn longer(p: Part, c: u8) -> Part {
    if c == b'.' {
        return grouped(p, 4);
    }
    if c == b':' {
        return grouped(p, 6);
    }
    if !p.begun {
        return first(p.before, c);
    }
    let mut p = p;
    p.decimal = wrapping_add_u64(p.decimal % 0x1_0000_0000 * 10, digit(c));
    p.hexadecimal = wrapping_add_u64(p.hexadecimal % 0x1_0000 * 16, digit(c));
    p
}

fn is_of_word(c: u8) -> bool {
    (c >= b'0' && c <= b':') || (c >= b'a' && c <= b'z') || c == b'.'
}

// One byte more of the row.
fn onward(p: Part, c: u8) -> Part {
    if is_of_word(c) {
        return longer(p, c);
    }
    if !p.begun {
        return p;
    }
    if p.before > 0 {
        return nothing(p.before - 1);
    }
    let mut p = p;
    p.ended = true;
    p
}

// The word that is wanted, or the number 0 where the row has none.
fn finished(p: Part) -> Word {
    if p.before > 0 {
        return number(0);
    }
    if p.form == NUMBER {
        return number(p.decimal);
    }
    let p = joined(p);
    Word {
        form: p.form,
        hi: p.hi,
        lo: p.lo,
    }
}

pub fn number(n: u64) -> Word {
    Word {
        form: NUMBER,
        hi: 0,
        lo: n,
    }
}

// The word of a row, or of a part of one, at the place.
pub fn word_at(row: &[u8], place: usize) -> Word {
    let mut p = nothing(place);
    for &c in row {
        if p.ended {
            break;
        }
        p = onward(p, c);
    }
    finished(p)
}

// Where a row stands: its first byte, its sign = or else its end, and its end; the byte that ends the text or the comment that is being read, and
// whether the row is whole.
#[derive(Clone, Copy, Debug, PartialEq, Eq)]
pub struct Place {
    pub start: usize,
    pub sign: usize,
    pub end: usize,
    pub mode: u8,
    pub whole: bool,
}

// Before the first byte of a text.
pub fn begin() -> Place {
    starts(0, 0)
}

fn starts(at: usize, mode: u8) -> Place {
    Place {
        start: at,
        sign: at,
        end: at,
        mode,
        whole: false,
    }
}

// The row has ended. A comment is a row without a byte.
fn ends(p: Place, mode: u8) -> Place {
    let mut p = p;
    p.mode = mode;
    p.whole = true;
    if p.sign == p.start {
        p.sign = p.end;
    }
    p
}

// A byte more in a text or a comment.
fn passes(p: Place, c: u8) -> Place {
    if c != p.mode {
        return p;
    }
    if c == b'\n' {
        return ends(starts(p.end, 0), 0);
    }
    let mut p = p;
    p.mode = 0;
    p
}

// The row with one byte more.
fn longer_by(p: Place, c: u8) -> Place {
    if p.mode > 0 {
        return passes(p, c);
    }
    let mut p = p;
    match c {
        b'\n' | b';' => ends(p, 0),
        b'#' => ends(p, b'\n'),
        b'"' => {
            p.mode = b'"';
            p
        }
        b'=' => {
            p.sign = p.end;
            p
        }
        _ => p,
    }
}

// The row, or where it is whole the next one, with the byte at the place.
pub fn next(p: Place, c: u8, at: usize) -> Place {
    if p.whole {
        return longer_by(starts(at, p.mode), c);
    }
    let mut p = p;
    p.end = at;
    longer_by(p, c)
}

// A row: what stands before its sign =, and from there on.
#[derive(Clone, Copy)]
pub struct Row<'a> {
    pub whole: &'a [u8],
    pub call: &'a [u8],
    pub must: &'a [u8],
}

// The row of the text that is whole at the place, if one is.
pub fn row_at<'a>(text: &'a [u8], p: Place) -> Option<Row<'a>>
    ensures { IfSome result (λ r. r.whole.now ≡ r.call.now ++ r.must.now) }
{
    if !p.whole || p.sign < p.start || p.end < p.sign || text.len() < p.end {
        return None;
    }
    Some(Row {
        whole: &text[p.start..p.end],
        call: &text[p.start..p.sign],
        must: &text[p.sign..p.end],
    })
}

// The rows of a text, each given to `case` with what the cases before it came to. A text without a byte has no case.
pub fn run<'a, F: FnMut(Tally, Row<'a>) -> Tally>(text: &'a [u8], mut case: F) -> Tally
    requires { F.IsAlwaysCallable case }
    ensures { length text.now ≡ 0 → (result.cases ≡ 0) × (result.wrong ≡ 0) }
{
    let mut t = none();
    let mut p = begin();
    for at in 0..text.len() {
        p = next(p, text[at], at);
        if let Some(row) = row_at(text, p) {
            t = case(t, row);
        }
    }
    t
}
