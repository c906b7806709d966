// What a program that runs cases counts, and the line in which it says so; and how it compares words.
#![tactic(auto)]

ghost use Rattle.std.specs.Prelude.{◌≡◌, ◌+◌, ◌%◌, ◌^◌, true, if◌then◌else◌, IsTrue, take, length};

use std::io;

pub mod calls;
pub mod table;

#[derive(Clone, Copy, Debug, PartialEq, Eq)]
pub struct Tally {
    pub cases: u32,
    pub wrong: u32,
}

// Before the first case.
pub fn none() -> Tally
    ensures { (result.cases ≡ 0) × (result.wrong ≡ 0) }
{
    Tally { cases: 0, wrong: 0 }
}

// One case more, which came out right, or did not.
pub fn count(t: Tally, right: bool) -> Tally
    ensures { (result.cases ≡ (t.cases + 1) % 2 ^ 32) × (result.wrong ≡ (if right then t.wrong else (t.wrong + 1) % 2 ^ 32)) }
{
    let cases = std::num::wrapping_add_u32(t.cases, 1);
    if right {
        return Tally {
            cases,
            wrong: t.wrong,
        };
    }
    let wrong = std::num::wrapping_add_u32(t.wrong, 1);
    Tally { cases, wrong }
}

// Whether two rows of words are equal.
pub fn same(a: &[u32], b: &[u32]) -> bool
    ensures { (result ≡ true → a.now ≡ b.now) × (a.now ≡ b.now → result ≡ true) }
{
    a == b
}

// Whether the bytes are this line and behind it the byte 170 alone.
pub fn holds(out: &[u8], line: &[u8]) -> bool
    ensures { IsTrue result → take (length line.now) out.now ≡ line.now }
{
    match out.strip_prefix(line) {
        Some(rest) => rest.iter().all(|x| *x == 170),
        None => false,
    }
}

// Writes how many cases there were, and how many of them came out wrong.
pub fn say(rt: &impl Print, t: Tally) -> io::Result<()> {
    let cases = t.cases;
    let wrong = t.wrong;
    println!(rt; "{cases} cases, {wrong} wrong")
}
