// The answers of the calls as the records of docs/CALLS.md: a refusal has its number, and zeros elsewhere.
#![tactic(auto)]

ghost use Rattle.std.specs.Prelude.{true, Some, ◌≡◌};
ghost use Rattle.nets.specs.Networks.{taken_as, entered_as, prefix_as, next_as};
ghost use Rattle.nets.specs.Refusals.{number};
ghost use Rattle.pool_state.specs.Rules.{answer_as, report_as};
ghost use Rattle.change.specs.Calls.{noted_as};
ghost use Rattle.lookup.specs.Rules.{sought, supernet_as, contains_as};
ghost use Rattle.listing.specs.Calls.{follower_as};
ghost use Rattle.text.specs.Answers.{written_as};
ghost use Rattle.setfile_compare.specs.Comparing.{holder_as, compared_as};
ghost use Rattle.salvage.specs.Calls.{salvaged_as};
ghost use Rattle.calls_replies.specs.Replies.{reply, no_reply, one_reply, two_reply, flag_reply, net_reply, found_reply, reported, enter_reply, write_reply, cover_reply, contain_reply};
ghost use Rattle.calls_replies.specs.Replies.{left_net, bits_reply, bit_reply, told_reply, entry_reply, compared_reply, salvage_reply};

use calls_bytes::Reply;
use calls_bytes::records::NO_NET;
use lookup::{Contained, Covering};
use nets::{Net, PrefixBits, Refusal};
use salvage::Counts;
use setfile_compare::{Compared, Holder};

// Nothing but a number.
pub fn only(no: u8) -> Reply
    ensures { result ≡ no_reply no }
{
    Reply {
        no,
        flag: false,
        x: 0,
        y: 0,
        net: NO_NET,
    }
}

fn refused(no: Refusal) -> Reply
    ensures { result ≡ no_reply (number no) }
{
    only(no.number())
}

fn of_flag(flag: bool) -> Reply
    ensures { result ≡ flag_reply (0, flag) }
{
    Reply { flag, ..only(0) }
}

// Two numbers.
pub fn of_numbers(no: u8, x: u32, y: u32) -> Reply
    ensures { result ≡ two_reply (no, (x, y)) }
{
    Reply { x, y, ..only(no) }
}

// A network that cannot be refused.
pub fn of_net(net: Net) -> Reply
    ensures { result ≡ net_reply (0, net) }
{
    Reply { net, ..only(0) }
}

fn of_member(net: Net) -> Reply
    ensures { result ≡ found_reply (0, (true, net)) }
{
    Reply {
        flag: true,
        ..of_net(net)
    }
}

// The network that holds what the bit iterator has left.
fn of_left(left: PrefixBits) -> Net
    ensures { result ≡ left_net left }
{
    Net {
        hi: left.hi,
        lo: left.lo,
        len: left.len,
        ..NO_NET
    }
}

pub fn of_answer(a: Result<u32, Refusal>) -> Reply
    ensures { result ≡ one_reply (answer_as a) }
{
    match a {
        Ok(x) => of_numbers(0, x, 0),
        Err(no) => refused(no),
    }
}

// An entry of a page beside the answer.
pub fn of_entry(a: Result<u32, Refusal>, net: Net) -> Reply
    ensures { result ≡ entry_reply (answer_as a) net }
{
    Reply {
        net,
        ..of_answer(a)
    }
}

pub fn of_report(a: Result<(u32, u32), Refusal>) -> Reply
    ensures { result ≡ two_reply (report_as a) }
{
    match a {
        Ok((x, y)) => of_numbers(0, x, y),
        Err(no) => refused(no),
    }
}

pub fn of_told(a: Result<bool, Refusal>) -> Reply
    ensures { result ≡ told_reply a }
{
    match a {
        Ok(flag) => of_flag(flag),
        Err(no) => refused(no),
    }
}

// What is granted, with the report in y.
fn of_trimmed(flag: bool, x: u32, trimmed: bool, net: Net) -> Reply
    ensures { result ≡ reply 0 flag x (reported trimmed) net }
{
    Reply {
        flag,
        net,
        ..of_numbers(0, x, u32::from(trimmed))
    }
}

pub fn of_noted(a: Result<(u32, bool), Refusal>) -> Reply
    ensures { result ≡ write_reply (noted_as a) }
{
    match a {
        Ok((x, trimmed)) => of_trimmed(false, x, trimmed, NO_NET),
        Err(no) => refused(no),
    }
}

// The answer of a lookup: the member, if one has the network inside it.
fn of_found(c: Covering) -> Reply
    ensures { result ≡ cover_reply (0, sought c.member c.steps c.cut) }
{
    match c.member {
        Some(net) => of_trimmed(true, c.steps as u32, c.cut, net),
        None => of_trimmed(false, c.steps as u32, c.cut, NO_NET),
    }
}

pub fn of_covering(a: Result<Covering, Refusal>) -> Reply
    ensures { result ≡ cover_reply (supernet_as a) }
{
    match a {
        Ok(c) => of_found(c),
        Err(no) => refused(no),
    }
}

pub fn of_contained(a: Result<Contained, Refusal>) -> Reply
    ensures { result ≡ contain_reply (contains_as a) }
{
    match a {
        Ok(c) => of_trimmed(c.is_member, c.steps as u32, c.cut, NO_NET),
        Err(refusal) => refused(refusal),
    }
}

pub fn of_follower(a: Result<Option<Net>, Refusal>) -> Reply
    ensures { result ≡ found_reply (follower_as a) }
{
    match a {
        Ok(Some(net)) => of_member(net),
        Ok(None) => only(0),
        Err(no) => refused(no),
    }
}

pub fn of_written(a: Result<(u32, bool), Refusal>) -> Reply
    ensures { result ≡ write_reply (written_as a) }
{
    match a {
        Ok((x, trimmed)) => of_trimmed(false, x, trimmed, NO_NET),
        Err(no) => refused(no),
    }
}

pub fn of_taken(a: Result<Net, Refusal>) -> Reply
    ensures { result ≡ net_reply (taken_as a) }
{
    match a {
        Ok(net) => of_net(net),
        Err(no) => refused(no),
    }
}

pub fn of_entered(a: Result<(Net, bool), Refusal>) -> Reply
    ensures { result ≡ enter_reply (entered_as a) }
{
    match a {
        Ok((net, trimmed)) => of_trimmed(false, 0, trimmed, net),
        Err(no) => refused(no),
    }
}

pub fn of_prefix(a: Result<PrefixBits, Refusal>) -> Reply
    ensures { result ≡ bits_reply (prefix_as a) }
{
    match a {
        Ok(left) => of_net(of_left(left)),
        Err(no) => refused(no),
    }
}

fn of_step(bit: bool, left: PrefixBits) -> Reply
    ensures { result ≡ bit_reply (next_as (Some (bit, left))) }
{
    Reply {
        flag: true,
        net: of_left(left),
        ..of_numbers(0, u32::from(bit), 0)
    }
}

pub fn of_bit(a: Option<(bool, PrefixBits)>) -> Reply
    ensures { result ≡ bit_reply (next_as a) }
{
    match a {
        Some((bit, left)) => of_step(bit, left),
        None => only(0),
    }
}

// The address that only one of two files holds.
fn of_differing(holder: Holder, net: Net) -> Reply
    ensures { result ≡ compared_reply (0, (holder_as holder, net)) }
{
    let x = match holder {
        Holder::First => 1,
        Holder::Second => 2,
    };
    Reply {
        flag: true,
        net,
        ..of_numbers(0, x, 0)
    }
}

pub fn of_compared(a: Result<Compared, Refusal>) -> Reply
    ensures { result ≡ compared_reply (compared_as a) }
{
    match a {
        Ok(Compared::Differs(holder, net)) => of_differing(holder, net),
        Ok(Compared::Longer) => of_numbers(0, 3, 0),
        Ok(Compared::Shortest) => of_numbers(0, 4, 0),
        Err(no) => refused(no),
    }
}

// The counts of a salvage.
fn of_counts(c: Counts) -> Reply
    ensures { result ≡ salvage_reply (0, c) }
{
    Reply {
        net: Net {
            hi: c.trimmed as u64,
            lo: 4294967296 * (c.long as u64) + c.covered as u64,
            ..NO_NET
        },
        ..of_numbers(0, c.bytes, c.read)
    }
}

pub fn of_salvaged(a: Result<Counts, Refusal>) -> Reply
    ensures { result ≡ salvage_reply (salvaged_as a) }
{
    match a {
        Ok(c) => of_counts(c),
        Err(no) => refused(no),
    }
}
