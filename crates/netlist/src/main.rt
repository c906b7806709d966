// Reads lines of networks into a set, all of the family of the first, simplifies it once and prints it: the shortest list of the same addresses, by the theorem simplify-fewest of nets.
//
// Where a line is refused, standard output has the scope document's one line, and standard error says it too, with the refusal's name.
#![tactic(auto)]

use std::io;
use tool_io::LinesError;

mod report;

const NODES: u32 = 1000;

// The words of a pool of one set and so many nodes.
const WORDS: usize = 8072;

// Says so where standard output was not written.
fn tell(rt: &HostRuntime, written: io::Result<()>) {
    if let Err(e) = written {
        tool_files::say_failed(rt, b"netlist", b"standard output", &e);
    }
}

fn main(rt: HostRuntime) {
    let mut pool = [0u32; WORDS];
    match tool_io::read_lines(&mut rt.stdin(), &mut pool, NODES) {
        Ok(lines) => {
            let _ = change::simplify(&mut pool, 0);
            tell(&rt, report::set(&rt, &pool, lines.family, lines.trimmed));
        }
        Err(LinesError::Refused(number, refusal)) => {
            tell(&rt, report::refused(&rt, number, refusal));
            tool_files::say_refused_line(&rt, b"netlist", number, refusal);
        }
        Err(LinesError::Unreadable(e)) => {
            tool_files::say_failed(&rt, b"netlist", b"standard input", &e);
        }
    }
}
