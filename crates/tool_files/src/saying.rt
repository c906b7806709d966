// Messages on standard error, a line each. The status of a program tells nothing: one that says nothing has done its work, and one that says a line has not.
use nets::Refusal;
use std::io;

// Writes to standard error. Where that fails there is nothing left to say it to.
pub fn say(rt: &HostRuntime, text: &[u8]) {
    let _ = rt.stderr().write_all(text);
}

// The end of a line about a refusal: its name, its number, and where the table stands. A number that no refusal has goes by the name of the last.
fn refusal(rt: &HostRuntime, no: u8) {
    let name = Refusal::try_from(no).unwrap_or(Refusal::NotPublic);
    let _ = eprintln!(rt; "{name} ({no} in docs/REFUSALS.md)");
}

// The program's call is refused, with a refusal or its number.
pub fn say_refused<N: Into<u8>>(rt: &HostRuntime, program: &[u8], no: N) {
    say(rt, program);
    say(rt, b": ");
    refusal(rt, no.into());
}

// A line of the program's input is refused, with a refusal or its number.
pub fn say_refused_line<N: Into<u8>>(rt: &HostRuntime, program: &[u8], number: u64, no: N) {
    say(rt, program);
    let _ = eprint!(rt; ": line {number} refused: ");
    refusal(rt, no.into());
}

// The text of an error. The library writes that of the system's with its number behind it, which is left out here.
fn tell(rt: &HostRuntime, error: &io::Error) {
    let Ok(text) = error.to_string(rt.alloc()) else {
        let _ = rt.eprint(error);
        return;
    };
    let text = text.as_str();
    match text.split_once(" (os error ") {
        Some((message, _)) => say(rt, message.as_bytes()),
        None => say(rt, text.as_bytes()),
    }
}

// The system refused something to the program: what, and the error's text.
pub fn say_failed(rt: &HostRuntime, program: &[u8], what: &[u8], error: &io::Error) {
    say(rt, program);
    say(rt, b": ");
    say(rt, what);
    say(rt, b": ");
    tell(rt, error);
    say(rt, b"\n");
}

// A file of the program has more bytes than it can read.
pub fn say_long(rt: &HostRuntime, program: &[u8], most: usize) {
    say(rt, program);
    let _ = eprintln!(rt; ": the file has more than {most} bytes");
}
