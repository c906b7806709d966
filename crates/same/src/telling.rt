// The answer in words.
use crate::address::print;
use nets::{Net, Refusal};
use setfile_compare::{Compared, Holder};
use std::io;

fn differs(out: &impl Print, holder: Holder, net: Net) -> io::Result<()> {
    out.write_all(b"different addresses: ")?;
    print(out, net)?;
    match holder {
        Holder::First => out.write_all(b" is in the first file alone\n"),
        Holder::Second => out.write_all(b" is in the second file alone\n"),
    }
}

// Fails where it was not written.
fn says_answer(rt: &HostRuntime, c: Result<Compared, Refusal>) -> io::Result<()> {
    match c {
        Ok(Compared::Differs(holder, net)) => differs(rt, holder, net),
        Ok(Compared::Longer) => {
            rt.write_all(b"the same addresses, and the second file is not the shortest list\n")
        }
        Ok(Compared::Shortest) => {
            rt.write_all(b"the same addresses, and the second file is the shortest list\n")
        }
        Err(refusal) => {
            tool_files::say_refused(rt, b"same", refusal);
            Ok(())
        }
    }
}

pub fn tell(rt: &HostRuntime, c: Result<Compared, Refusal>) {
    if let Err(e) = says_answer(rt, c) {
        tool_files::say_failed(rt, b"same", b"standard output", &e);
    }
}
