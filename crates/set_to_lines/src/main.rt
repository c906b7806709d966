// Prints a set file as lines, in the order of its list: set-to-lines SETFILE, the name of a file, where - is standard input.
//
// Where the file is refused, standard error says why and nothing is printed. The set has at most 100,000 nodes: a file with more is refused, OverLimit. One
// with more bytes than the file of such a set can have is not read whole, and standard error says so.
#![tactic(auto)]

use nets::{IPV4, IPV6};
use tool_files::{BYTES, NODES, ROWS, WORDS};

// The family that the header of a file says. Another number than 6 is that of IPv4, or of no file.
fn family_of(bytes: &[u8]) -> u8 {
    if bytes.len() >= 4 && bytes[3] == IPV6 {
        return IPV6;
    }
    IPV4
}

// Lays the pool out for the file, and gives its set the list of it. The family, or None where the file is refused, and standard error says why.
fn load(rt: &HostRuntime, pool: &mut [u32], bytes: &[u8]) -> Option<u8> {
    let family = family_of(bytes);
    let _ = pool::layout(pool, family, 0, 1, NODES, &[NODES], &[NODES], 0);
    match setfile::load(pool, 0, bytes) {
        Ok(_) => Some(family),
        Err(refusal) => {
            tool_files::say_refused(rt, b"set-to-lines", refusal);
            None
        }
    }
}

// The same from the file that the argument names, by way of lent bytes.
fn load_file(rt: &HostRuntime, pool: &mut [u32], bytes: &mut [u8]) -> Option<u8> {
    let n = tool_files::read_source(rt, b"set-to-lines", 1, b"SETFILE", bytes)?;
    load(rt, pool, &bytes[..n])
}

// Prints the networks of the set, by way of lent rows.
fn print(rt: &HostRuntime, pool: &[u32], family: u8, rows: &mut [u64]) {
    if let Err(e) = tool_print::print_set(rt, pool, family, 0, rows) {
        tool_files::say_failed(rt, b"set-to-lines", b"standard output", &e);
    }
}

// The whole work, in the words of a pool and the bytes of a file.
fn run(rt: &HostRuntime, pool: &mut [u32], bytes: &mut [u8]) {
    if let Some(family) = load_file(rt, pool, bytes) {
        let mut rows = [0u64; ROWS];
        print(rt, pool, family, &mut rows);
    }
}

fn main(rt: HostRuntime) {
    if !tool_files::has_one(&rt) {
        tool_files::say(&rt, b"usage: set-to-lines SETFILE\n");
        return;
    }
    let mut pool = [0u32; WORDS];
    let mut bytes = [0u8; BYTES];
    run(&rt, &mut pool, &mut bytes);
}
