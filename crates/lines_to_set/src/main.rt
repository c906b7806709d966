// Writes the set file of lines of networks, all of the family of the first: lines-to-set LINES SETFILE, two names of files, where - is standard input or standard output.
//
// The list is the one that add gives, line after line: a network inside another goes, and two halves of a block are not joined. Where a line is refused,
// standard error says which and why, and no file is written. The set has at most 100,000 nodes: a line that needs more is refused, OverLimit.
#![tactic(auto)]

use tool_files::{BYTES, NODES, Opened, PATH, WORDS};
use tool_io::LinesError;

// Lays the pool out, and adds the networks of the lines to its set. Whether none is refused.
fn take(rt: &HostRuntime, from: &mut Opened, path: &[u8], pool: &mut [u32]) -> bool {
    match tool_io::read_lines(from, pool, NODES) {
        Ok(_) => true,
        Err(LinesError::Refused(number, refusal)) => {
            tool_files::say_refused_line(rt, b"lines-to-set", number, refusal);
            false
        }
        Err(LinesError::Unreadable(e)) => {
            tool_files::say_failed(rt, b"lines-to-set", path, &e);
            false
        }
    }
}

// The same from the file that the first argument names.
fn take_file(rt: &HostRuntime, pool: &mut [u32]) -> bool {
    let mut path = [0u8; PATH];
    let n = match tool_files::argument(rt, 1, &mut path) {
        Ok(n) => n,
        Err(e) => {
            tool_files::say_failed(rt, b"lines-to-set", b"LINES", &e);
            return false;
        }
    };
    match tool_files::open_source(rt, &path[..n]) {
        Ok(mut from) => take(rt, &mut from, &path[..n], pool),
        Err(e) => {
            tool_files::say_failed(rt, b"lines-to-set", &path[..n], &e);
            false
        }
    }
}

// Writes a file, and says so where that failed.
fn write(rt: &HostRuntime, path: &[u8], bytes: &[u8]) {
    if let Err(e) = tool_files::write_file(rt, path, bytes) {
        tool_files::say_failed(rt, b"lines-to-set", path, &e);
    }
}

// Writes the file of the set, by way of lent bytes.
fn save(rt: &HostRuntime, pool: &[u32], path: &[u8], bytes: &mut [u8]) {
    let saved = setfile::save(pool, 0, bytes);
    match saved {
        Err(refusal) => tool_files::say_refused(rt, b"lines-to-set", refusal),
        Ok(k) => {
            let n = k as usize;
            write(rt, path, &bytes[..n]);
        }
    }
}

// The same to the file that the second argument names.
fn save_file(rt: &HostRuntime, pool: &[u32], bytes: &mut [u8]) {
    let mut path = [0u8; PATH];
    match tool_files::argument(rt, 2, &mut path) {
        Ok(n) => save(rt, pool, &path[..n], bytes),
        Err(e) => tool_files::say_failed(rt, b"lines-to-set", b"SETFILE", &e),
    }
}

// The whole work, in the words of a pool and the bytes of a file.
fn run(rt: &HostRuntime, pool: &mut [u32], bytes: &mut [u8]) {
    if take_file(rt, pool) {
        save_file(rt, pool, bytes);
    }
}

fn main(rt: HostRuntime) {
    if !tool_files::has_two(&rt) {
        tool_files::say(&rt, b"usage: lines-to-set LINES SETFILE\n");
        return;
    }
    let mut pool = [0u32; WORDS];
    let mut bytes = [0u8; BYTES];
    run(&rt, &mut pool, &mut bytes);
}
