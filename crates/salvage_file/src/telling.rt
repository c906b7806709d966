// The counts in words.
use salvage::Counts;
use std::io;

// Fails where they were not written.
fn says_counts(out: &impl Print, c: Counts) -> io::Result<()> {
    print!(out;
        "{} entries read, {} trimmed, {} dropped for their length, ",
        c.read, c.trimmed, c.long
    )?;
    println!(out;
        "{} dropped as covered, {} bytes written",
        c.covered, c.bytes
    )
}

pub fn tell(rt: &HostRuntime, c: Counts) {
    if let Err(e) = says_counts(rt, c) {
        tool_files::say_failed(rt, b"salvage", b"standard output", &e);
    }
}
