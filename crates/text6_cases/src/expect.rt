// How a case is held to what it must give.
use nets::{Net, Refusal};
use test_counts::{Tally, count, holds};

// The network is written as this line, with no report.
fn writes(net: Net, line: &[u8]) -> bool {
    let mut out = [170u8; 50];
    match text_either::write_line(net, &mut out) {
        Ok((k, cut)) => holds(&out, line) && k as usize == line.len() && !cut,
        Err(_) => false,
    }
}

// The line is read as this network, with no report, as one of its own family and as one of either; which is written as the text.
pub fn reads(t: Tally, line: &[u8], hi: u64, lo: u64, len: u8, text: &[u8]) -> Tally {
    let net = Net {
        family: 6,
        hi,
        lo,
        len,
    };
    let t = count(t, text_ipv6_read::read_line(line) == Ok((net, false)));
    let t = count(t, text_either::read_line(line) == Ok((net, false)));
    count(t, writes(net, text))
}

// The line is one of neither family.
pub fn refuses(t: Tally, line: &[u8]) -> Tally {
    let t = count(t, text_ipv6_read::read_line(line) == Err(Refusal::BadText));
    count(t, text_either::read_line(line) == Err(Refusal::BadText))
}
