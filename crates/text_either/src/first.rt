// The first line of an input, and the family that it tells.
ghost use Rattle.std.specs.Prelude.{◌≡◌, ◌≤◌, length, take};
ghost use Rattle.text_either.specs.First.{first_line, first_family};

use nets::IPV4;

// Where the first line ends.
pub fn end(input: &[u8]) -> usize
    ensures { (result ≤ length input.now) × (take result input.now ≡ first_line input.now) }
{
    for at in 0..input.len() {
        if input[at] == b'\n' {
            return at;
        }
    }
    input.len()
}

// The family of the first line. One that is no network tells none: it is refused in a pool of either family.
pub fn family(input: &[u8]) -> u8
    ensures { result ≡ first_family input.now }
{
    let at = end(input);
    match crate::read_line(&input[..at]) {
        Ok((net, _)) => net.family,
        Err(_) => IPV4,
    }
}
