// A file that is read whole.
ghost use Rattle.std.specs.Counts.{IsPrefixLen};
ghost use Rattle.std.specs.Io.{ReadsAtMost};
ghost use Rattle.std.specs.Prelude.{IfSome, ◌≤◌};

use crate::opening::{ENAMETOOLONG, Opened, PATH, open_source};
use crate::reading::read_full;
use crate::saying::{say_failed, say_long};
use std::env::{Env, FillError};
use std::io;
use std::io::Read;

// The system's number for an argument that is missing.
const EINVAL: i32 = 22;

// Whether the program has an argument at a place, short or long.
fn is_given(rt: &HostRuntime, place: usize) -> bool {
    let mut none = [0u8; 1];
    match rt.arg(place, &mut none) {
        Err(FillError::NotPresent) => false,
        Ok(_) | Err(FillError::TooLong) => true,
    }
}

// Whether the program has one argument, and no second.
pub fn has_one(rt: &HostRuntime) -> bool {
    is_given(rt, 1) && !is_given(rt, 2)
}

// Whether it has two, and no third.
pub fn has_two(rt: &HostRuntime) -> bool {
    is_given(rt, 2) && !is_given(rt, 3)
}

// Puts the argument at a place into a buffer that is lent, and answers its length.
pub fn argument(rt: &HostRuntime, place: usize, buf: &mut [u8]) -> io::Result<usize>
    ensures { ReadsAtMost result buf.new }
{
    match rt.arg(place, buf) {
        Ok(n) => Ok(n),
        Err(FillError::NotPresent) => Err(io::Error::from_raw_os_error(EINVAL)),
        Err(FillError::TooLong) => Err(io::Error::from_raw_os_error(ENAMETOOLONG)),
    }
}

// One byte more: how many came, 0 at the end of the file.
fn past(file: &mut Opened) -> io::Result<usize> {
    let mut one = [0u8; 1];
    file.read(&mut one)
}

// The bytes of the file, if none comes behind them, where there is room for no more than `most`. None where that was said.
fn ended(
    rt: &HostRuntime,
    program: &[u8],
    file: &mut Opened,
    path: &[u8],
    n: usize,
    most: usize,
) -> Option<usize>
    ensures { IfSome result (λ bytes. bytes ≤ n) }
{
    match past(file) {
        Ok(0) => Some(n),
        Ok(_) => {
            say_long(rt, program, most);
            None
        }
        Err(e) => {
            say_failed(rt, program, path, &e);
            None
        }
    }
}

// Reads an open file.
fn read(
    rt: &HostRuntime,
    program: &[u8],
    file: &mut Opened,
    path: &[u8],
    bytes: &mut [u8],
) -> Option<usize>
    ensures { IfSome result (λ n. IsPrefixLen n bytes.new) }
{
    match read_full(file, bytes) {
        Ok(n) => ended(rt, program, file, path, n, bytes.len()),
        Err(e) => {
            say_failed(rt, program, path, &e);
            None
        }
    }
}

// Reads the file that the argument at a place names, into bytes that are lent. It may have no more than these. How many bytes it has, or None where it is not
// read, and standard error has said why.
pub fn read_source(
    rt: &HostRuntime,
    program: &[u8],
    place: usize,
    what: &[u8],
    bytes: &mut [u8],
) -> Option<usize>
    ensures { IfSome result (λ n. IsPrefixLen n bytes.new) }
{
    let mut path = [0u8; PATH];
    let n = match argument(rt, place, &mut path) {
        Ok(n) => n,
        Err(e) => {
            say_failed(rt, program, what, &e);
            return None;
        }
    };
    match open_source(rt, &path[..n]) {
        Ok(mut file) => read(rt, program, &mut file, &path[..n], bytes),
        Err(e) => {
            say_failed(rt, program, &path[..n], &e);
            None
        }
    }
}
