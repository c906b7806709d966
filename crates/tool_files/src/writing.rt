// A file written whole or not at all: it is written beside the old one, under a name of its own, and takes the old one's name when all of it is on the disk.
// So a write that fails, as on a full disk, leaves the old file as it was.
ghost use Rattle.std.specs.Counts.{IsPrefixLen};
ghost use Rattle.std.specs.Prelude.{◌≤◌, length};

use crate::opening::{ENAMETOOLONG, PATH, is_dash, name_of};
use std::fs::{File, OpenOptions};
use std::io::{ErrorKind, Seek, SeekFrom, Write};
use std::{fs, io, process, str};

// Puts the text into the name from a place on, as far as there is room, and answers the place behind it.
fn append(name: &mut [u8], at: usize, text: &[u8]) -> usize
    requires { at ≤ length name.old }
    ensures { IsPrefixLen result name.new }
{
    let n = text.len().min(name.len() - at);
    name[at..at + n].copy_from_slice(&text[..n]);
    at + n
}

// Puts the number's digits at the end of the buffer, and answers where they begin.
fn digits(number: u32, out: &mut [u8; 10]) -> usize
    ensures { result ≤ 10 }
{
    let mut rest = number;
    for k in 0..10 {
        out[9 - k] = b'0' + (rest % 10) as u8;
        rest /= 10;
        if rest == 0 {
            return 9 - k;
        }
    }
    0
}

// The name of the new file, path.new-PID, and its length. A name that is too long fills all of the buffer, and is then no path.
fn beside(rt: &HostRuntime, path: &[u8], name: &mut [u8]) -> usize
    ensures { IsPrefixLen result name.new }
{
    let mut number = [0u8; 10];
    let from = digits(process::id(rt.process()), &mut number);
    let stem = append(name, 0, path);
    let mark = append(name, stem, b".new-");
    append(name, mark, &number[from..])
}

fn is_link(rt: &HostRuntime, path: &str) -> bool {
    match fs::symlink_metadata(rt, path) {
        Ok(found) => found.is_symlink(),
        Err(_) => false,
    }
}

// Cuts an open file at its own end, which only a regular file can be.
fn can_be_cut(file: &mut File) -> bool {
    match file.seek(SeekFrom::End(0)) {
        Ok(end) => file.set_len(end).is_ok(),
        Err(_) => false,
    }
}

// Whether the name is free or a regular file's. Only a regular file can be cut, and at its own end nothing is cut off.
fn is_file(rt: &HostRuntime, path: &str) -> bool {
    match OpenOptions::new().read(true).write(true).open(rt, path) {
        Ok(mut file) => can_be_cut(&mut file),
        Err(e) => e.kind() == ErrorKind::NotFound,
    }
}

// Writes a new file to the disk.
fn put_down(file: File, bytes: &[u8]) -> io::Result<()> {
    let mut file = file;
    file.write_all(bytes)?;
    file.sync_all()
}

// Makes a new file, writes it and gives it the name. Where writing or that fails the new file goes.
fn make(rt: &HostRuntime, new: &str, path: &str, bytes: &[u8]) -> io::Result<()> {
    let file = OpenOptions::new()
        .write(true)
        .create_new(true)
        .open(rt, new)?;
    let done = match put_down(file, bytes) {
        Ok(()) => fs::rename(rt, new, path),
        Err(e) => Err(e),
    };
    if done.is_err() {
        let _ = fs::remove_file(rt, new);
    }
    done
}

// The same by way of a name beside it.
fn replace(rt: &HostRuntime, path: &str, bytes: &[u8]) -> io::Result<()> {
    let mut name = [0u8; PATH];
    let n = beside(rt, path.as_bytes(), &mut name);
    match str::from_utf8(&name[..n]) {
        Ok(new) => make(rt, new, path, bytes),
        Err(_) => Err(io::Error::from_raw_os_error(ENAMETOOLONG)),
    }
}

// Writes the bytes to the file of that name, or to standard output for -. A link, a device or a pipe is not replaced, but written to.
pub fn write_file(rt: &HostRuntime, path: &[u8], bytes: &[u8]) -> io::Result<()> {
    if is_dash(path) {
        return rt.stdout().write_all(bytes);
    }
    let name = name_of(path)?;
    if is_link(rt, name) || !is_file(rt, name) {
        return fs::write(rt, name, bytes);
    }
    replace(rt, name, bytes)
}
