// Networks: the numbers of one, the refusal of numbers that are none, clearing, and the bits from the highest on.
ghost use Rattle.std.specs.Prelude.{◌≡◌};
ghost use Rattle.nets.specs.Refusals.{number, answered};
ghost use Rattle.nets.specs.Numbered.{NamedBy};
ghost use Rattle.nets.specs.Networks.{net_words, refusal_of, no_net, taken_as, judged, with_len, with_len_no, cleared, entered_as, entered};
ghost use Rattle.nets.specs.Networks.{start_of, no_bits, prefix_as, next_as, next_of};

use std::fmt;

pub mod families;
pub mod lengths;
mod rules;
mod words;

pub use words::has_bit_past;

// The refusals of the table, by name.
#[derive(Clone, Copy, Debug, PartialEq, Eq)]
pub enum Refusal {
    BadSetup,
    Damaged,
    NoSet,
    BadText,
    BadFile,
    WrongFamily,
    BadNetwork,
    Occupied,
    OverLimit,
    NoRoom,
    ShortBuffer,
    BadRange,
    BadShare,
    NotPublic,
}

impl Refusal {
    // The number of the table.
    pub fn number(self) -> u8
        ensures { result ≡ number self }
    {
        match self {
            Refusal::BadSetup => 1,
            Refusal::Damaged => 2,
            Refusal::NoSet => 3,
            Refusal::BadText => 4,
            Refusal::BadFile => 5,
            Refusal::WrongFamily => 6,
            Refusal::BadNetwork => 7,
            Refusal::Occupied => 8,
            Refusal::OverLimit => 9,
            Refusal::NoRoom => 10,
            Refusal::ShortBuffer => 11,
            Refusal::BadRange => 12,
            Refusal::BadShare => 13,
            Refusal::NotPublic => 14,
        }
    }
}

impl From<Refusal> for u8 {
    ghost from_gives = { λ refusal n. n ≡ number refusal };

    fn from(refusal: Refusal) -> u8 {
        refusal.number()
    }
}

// A number that stands for no refusal of the table.
#[derive(Clone, Copy, Debug, PartialEq, Eq)]
pub struct NoSuchRefusal(pub u8);

impl TryFrom<u8> for Refusal {
    type Error = NoSuchRefusal;

    ghost try_from_gives = { NamedBy };

    fn try_from(number: u8) -> Result<Refusal, NoSuchRefusal> {
        match number {
            1 => Ok(Refusal::BadSetup),
            2 => Ok(Refusal::Damaged),
            3 => Ok(Refusal::NoSet),
            4 => Ok(Refusal::BadText),
            5 => Ok(Refusal::BadFile),
            6 => Ok(Refusal::WrongFamily),
            7 => Ok(Refusal::BadNetwork),
            8 => Ok(Refusal::Occupied),
            9 => Ok(Refusal::OverLimit),
            10 => Ok(Refusal::NoRoom),
            11 => Ok(Refusal::ShortBuffer),
            12 => Ok(Refusal::BadRange),
            13 => Ok(Refusal::BadShare),
            14 => Ok(Refusal::NotPublic),
            _ => Err(NoSuchRefusal(number)),
        }
    }
}

// The name, as the table has it.
impl fmt::Display for Refusal {
    fn fmt<W: fmt::Write>(&self, f: &mut fmt::Formatter<W>) -> fmt::Result {
        f.write_str(match self {
            Refusal::BadSetup => "BadSetup",
            Refusal::Damaged => "Damaged",
            Refusal::NoSet => "NoSet",
            Refusal::BadText => "BadText",
            Refusal::BadFile => "BadFile",
            Refusal::WrongFamily => "WrongFamily",
            Refusal::BadNetwork => "BadNetwork",
            Refusal::Occupied => "Occupied",
            Refusal::OverLimit => "OverLimit",
            Refusal::NoRoom => "NoRoom",
            Refusal::ShortBuffer => "ShortBuffer",
            Refusal::BadRange => "BadRange",
            Refusal::BadShare => "BadShare",
            Refusal::NotPublic => "NotPublic",
        })
    }
}

// The family of addresses of 32 bits.
pub const IPV4: u8 = 4;

// The family of addresses of 128 bits.
pub const IPV6: u8 = 6;

// A family, an address in two words, and a length. An IPv4 address is below 2^32, in the low word.
#[derive(Clone, Copy, Debug, PartialEq, Eq)]
pub struct Net {
    pub family: u8,
    pub hi: u64,
    pub lo: u64,
    pub len: u8,
}

// The bits of a network that are still to come, the first of them the highest of the two words.
#[derive(Clone, Copy, Debug, PartialEq, Eq)]
pub struct PrefixBits {
    pub hi: u64,
    pub lo: u64,
    pub len: u8,
}

impl Net {
    // The network as given, its bits past the length too.
    pub fn new(family: u8, hi: u64, lo: u64, len: u8) -> Result<Net, Refusal>
        ensures { taken_as result ≡ judged (net_words family hi lo len) }
    {
        rules::accept(Net {
            family,
            hi,
            lo,
            len,
        })
    }

    // The network taken in: the bits past its length are cleared, and the answer says whether one was set.
    pub fn to_network(self) -> Result<(Net, bool), Refusal>
        ensures { entered_as result ≡ entered self }
    {
        let n = rules::cut(self)?;
        Ok((n, has_bit_past(self)))
    }

    // The network of length len around the same address. The bits behind it are cut as asked, so there is nothing to report.
    pub fn with_new_prefix(self, len: u8) -> Result<Net, Refusal>
        ensures { taken_as result ≡ answered (with_len_no self len) no_net (cleared (with_len self len)) }
    {
        let mut n = rules::accept(self)?;
        n.len = len;
        rules::cut(n)
    }

    // The bits of the network, to be taken one by one.
    pub fn prefix_bits(self) -> Result<PrefixBits, Refusal>
        ensures { prefix_as result ≡ answered (refusal_of self) no_bits (start_of self) }
    {
        let n = rules::accept(self)?;
        Ok(words::start(n))
    }
}

impl PrefixBits {
    // The next bit, with the iterator of those behind it.
    pub fn next(mut self) -> Option<(bool, PrefixBits)>
        ensures { next_as result ≡ next_of self }
    {
        if self.len == 0 {
            return None;
        }
        let bit = self.hi >> 63 == 1;
        self.hi = (self.hi << 1) | (self.lo >> 63);
        self.lo <<= 1;
        self.len -= 1;
        Some((bit, self))
    }
}
