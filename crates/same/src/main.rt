// Says whether two set files cover the same addresses, and whether the second is the shortest list of them: same FIRST SECOND, the names of files, where - is
// standard input.
//
// The answer is a line on standard output. Where a file is refused or cannot be read, standard error says why and nothing is printed. So does it of a file of
// more than 2,000,016 bytes, which is 400,000 IPv4 networks.
#![tactic(auto)]

use setfile_compare::compare;

mod address;
mod telling;

// The bytes of the largest file.
const ROOM: usize = 2000016;

// Both files, in bytes that are lent.
fn run(rt: &HostRuntime, first: &mut [u8], second: &mut [u8]) {
    let Some(a) = tool_files::read_source(rt, b"same", 1, b"FIRST", first) else {
        return;
    };
    let Some(b) = tool_files::read_source(rt, b"same", 2, b"SECOND", second) else {
        return;
    };
    telling::tell(rt, compare(&first[..a], &second[..b]));
}

fn main(rt: HostRuntime) {
    if !tool_files::has_two(&rt) {
        tool_files::say(&rt, b"usage: same FIRST SECOND\n");
        return;
    }
    let mut first = [0u8; ROOM];
    let mut second = [0u8; ROOM];
    run(&rt, &mut first, &mut second);
}
