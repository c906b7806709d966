// How a case is held to what it must give. An entry is the address and the length of a network in one number, as the bytes of an entry of a set file.
// Trimmed says that a set bit past the length was cut.
ghost use Rattle.std.specs.Prelude.{◌≡◌, ◌≤◌, ◌/◌, ◌%◌};
ghost use Rattle.nets.specs.Networks.{net_words};

use nets::{Net, Refusal};
use test_counts::holds;

// The network of an entry.
pub fn net_of(entry: u64) -> Net
    ensures { result ≡ net_words 4 0 (entry / 256) (entry % 256) }
{
    Net {
        family: 4,
        hi: 0,
        lo: entry / 256,
        len: (entry % 256) as u8,
    }
}

// The line is read as the network of the entry, with this report, or refused as no network where there is none.
pub fn reads(line: &[u8], entry: Option<u64>, trimmed: bool) -> bool {
    let must = match entry {
        Some(e) => Ok((net_of(e), trimmed)),
        None => Err(Refusal::BadText),
    };
    text::read_line(line) == must
}

// Written to so many bytes, the network gives this line with this report, or gets this refusal, or the one with this number; no other byte changes.
pub fn writes<N: Into<u8> + Copy>(net: Net, room: usize, line: &[u8], must: Result<bool, N>) -> bool
    requires { room ≤ 24 }
{
    let mut out = [170u8; 24];
    let r = text::write_line(net, &mut out[0..room]);
    match (r, must) {
        (Ok((k, cut)), Ok(trimmed)) => {
            holds(&out, line) && k as usize == line.len() && cut == trimmed
        }
        (Err(refusal), Err(no)) => holds(&out, b"") && refusal.number() == no.into(),
        _ => false,
    }
}
