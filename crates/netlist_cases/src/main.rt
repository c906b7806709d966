// Reads inputs by the calls that netlist makes, cut into pieces of many sizes, and counts those that come to something else than they must. What they must come to was
// made by hand from the scope document, or for the filled inputs with Python's ipaddress: a list is collapse_addresses of the networks, its nodes are the
// different leading bit strings of its members.
#![tactic(auto)]

mod damaged;
mod expect;
mod filled;
mod large;
mod reading;
mod small;
mod trimmed;

use std::io;

fn main(rt: HostRuntime) -> io::Result<()> {
    let mut t = small::accepted(test_counts::none());
    t = small::joined(t);
    t = small::refused(t);
    t = small::zeros(t);
    t = small::unfit(t);
    t = small::longest(t);
    t = large::over_limit(t);
    t = large::many(t);
    t = large::long_lines(t);
    t = damaged::at_once(t);
    t = damaged::between(t);
    t = trimmed::few(t);
    t = trimmed::refused(t);
    test_counts::say(&rt, t)
}
