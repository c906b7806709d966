// Files by name. The name - is standard input or standard output. The library opens files by text alone: a name that is no UTF-8 is an error.
use std::fs::File;
use std::io::{ErrorKind, Read, Stdin};
use std::{fs, io, str};

// The bytes of the longest path, and one.
pub const PATH: usize = 4096;

// The system's number for a name that is too long.
pub const ENAMETOOLONG: i32 = 36;

pub fn is_dash(path: &[u8]) -> bool {
    path.len() == 1 && path[0] == b'-'
}

// A name as the library takes it.
pub fn name_of(path: &[u8]) -> io::Result<&str> {
    match str::from_utf8(path) {
        Ok(name) => Ok(name),
        Err(_) => Err(io::Error::new(ErrorKind::InvalidInput, "the name is no UTF-8")),
    }
}

// What is read from: standard input, or an open file.
#[derive(Drop)]
pub enum Opened {
    Input(Stdin),
    Named(File),
}

impl Read for Opened {
    fn read(&mut self, buf: &mut [u8]) -> io::Result<usize> {
        match self {
            Opened::Input(input) => input.read(buf),
            Opened::Named(file) => file.read(buf),
        }
    }
}

// Opens the file of that name to read from.
pub fn open_source(rt: &HostRuntime, path: &[u8]) -> io::Result<Opened> {
    if is_dash(path) {
        return Ok(Opened::Input(rt.stdin()));
    }
    let file = fs::open(rt, name_of(path)?)?;
    Ok(Opened::Named(file))
}
