// Writes the right file of what is left of a wrecked set file: salvage WRECK SETFILE, two names of files, where the first may be -, standard input.
//
// Standard output then says how many entries were read, trimmed, dropped for their length and dropped as covered, and how many bytes the file has. Where the wreck is
// refused, or something cannot be read or written, standard error says why, and SETFILE stays as it was. So it is with a wreck of more than 2,000,016 bytes, which is 400,000
// IPv4 entries.
#![tactic(auto)]

use salvage::{Counts, salvage};
use tool_files::PATH;

mod telling;

// The bytes of the largest wreck. What is left of it has no more, so the result always fits as many.
const ROOM: usize = 2000016;

// Writes what is left to the file of that name, and tells the counts.
fn write(rt: &HostRuntime, path: &[u8], file: &[u8], c: Counts) {
    match tool_files::write_file(rt, path, file) {
        Ok(()) => telling::tell(rt, c),
        Err(e) => tool_files::say_failed(rt, b"salvage", path, &e),
    }
}

// Salvages the bytes of a wreck, by way of lent bytes, to the file of that name.
fn save(rt: &HostRuntime, wreck: &[u8], out: &mut [u8], path: &[u8]) {
    let a = salvage(wreck, out);
    match a {
        Err(refusal) => tool_files::say_refused(rt, b"salvage", refusal),
        Ok(c) => {
            let n = c.bytes as usize;
            write(rt, path, &out[..n], c);
        }
    }
}

// The same to the file that the second argument names.
fn save_file(rt: &HostRuntime, wreck: &[u8], out: &mut [u8]) {
    let mut path = [0u8; PATH];
    match tool_files::argument(rt, 2, &mut path) {
        Ok(n) => save(rt, wreck, out, &path[..n]),
        Err(e) => tool_files::say_failed(rt, b"salvage", b"SETFILE", &e),
    }
}

// The whole work, in the bytes of two files.
fn run(rt: &HostRuntime, wreck: &mut [u8], out: &mut [u8]) {
    if let Some(n) = tool_files::read_source(rt, b"salvage", 1, b"WRECK", wreck) {
        save_file(rt, &wreck[..n], out);
    }
}

fn main(rt: HostRuntime) {
    if !tool_files::has_two(&rt) {
        tool_files::say(&rt, b"usage: salvage WRECK SETFILE\n");
        return;
    }
    let mut wreck = [0u8; ROOM];
    let mut out = [0u8; ROOM];
    run(&rt, &mut wreck, &mut out);
}
