// The kinds of calls: which code is of which kind, and what a call of a kind asks for. All else goes by the kind.
ghost use Rattle.std.specs.Prelude.{◌≡◌, ◌≤◌};
ghost use Rattle.calls_kinds.specs.Kinds.{kind_of, asked_as, asks, asks_by, asks_of, tail_length};

use calls_bytes::{Call, table};

pub mod places;

// Each kind is answered by one function: that of a group of calls, or of a call by itself.
#[derive(Clone, Copy, Debug, PartialEq, Eq)]
pub enum Kind {
    Layout,
    Report,
    Change,
    List,
    Network,
    WriteLine,
    Save,
    Load,
    Lines,
    Compare,
    WriteWords,
    ReadWords,
    Salvage,
    Unknown,
}

// What a call asks for: bytes for the tail of its answer, and rows.
#[derive(Clone, Copy, Debug, PartialEq, Eq)]
pub struct Asks {
    pub bytes: usize,
    pub rows: usize,
}

// The kind of a code.
pub fn kind_of(code: u8) -> Kind
    ensures { result ≡ kind_of code }
{
    match code {
        table::LAYOUT => Kind::Layout,
        table::FREE..=table::IS_EMPTY => Kind::Report,
        table::ADD..=table::EXCLUDE_APART => Kind::Change,
        table::EQUAL => Kind::Report,
        table::LIST => Kind::List,
        table::NEXT => Kind::Report,
        table::READ_LINE => Kind::Network,
        table::WRITE_LINE => Kind::WriteLine,
        table::SAVE => Kind::Save,
        table::LOAD => Kind::Load,
        table::LINES => Kind::Lines,
        table::NTH..=table::PAGE => Kind::Report,
        table::EXCLUDE..=table::MAKE_PUBLIC => Kind::Change,
        table::RANGES => Kind::List,
        table::ADD_RANGE..=table::REMOVE_FILE => Kind::Load,
        table::NEW..=table::READ_LINE_EITHER => Kind::Network,
        table::SALVAGE => Kind::Salvage,
        table::COMPARE => Kind::Compare,
        table::WRITE_WORDS => Kind::WriteWords,
        table::READ_WORDS => Kind::ReadWords,
        _ => Kind::Unknown,
    }
}

// A call that asks for nothing.
const NOTHING: Option<Asks> = Some(Asks { bytes: 0, rows: 0 });

// So many bytes for a tail, and no rows.
fn tail_of(bytes: usize) -> Option<Asks>
    ensures { asked_as result ≡ asks bytes 0 }
{
    Some(Asks { bytes, rows: 0 })
}

// What a call of a kind asks for, by its b; None for what is no call.
fn asks_by(kind: Kind, b: usize) -> Option<Asks>
    requires { b ≤ 4294967295 }
    ensures { asked_as result ≡ asks_by kind b }
{
    match kind {
        Kind::Layout => NOTHING,
        Kind::Report => NOTHING,
        Kind::Change => NOTHING,
        Kind::List => Some(Asks {
            bytes: 8 * b,
            rows: b,
        }),
        Kind::Network => NOTHING,
        Kind::WriteLine => tail_of(b),
        Kind::Save => tail_of(b),
        Kind::Load => NOTHING,
        Kind::Lines => NOTHING,
        Kind::Compare => NOTHING,
        Kind::WriteWords => NOTHING,
        Kind::ReadWords => tail_of(4 * b),
        Kind::Salvage => tail_of(b),
        Kind::Unknown => None,
    }
}

// What a call asks for; None for what is no call.
pub fn asks_of(c: Call) -> Option<Asks>
    ensures value { asked_as result ≡ asks_of c }
    ensures bytes_bound { (asked_as result).bytes ≤ 34359738368 }
{
    asks_by(kind_of(c.code), c.b as usize)
}

// How many bytes the tail of its answer has.
pub fn tail_length(c: Call) -> usize
    ensures { result ≡ tail_length c }
{
    match asks_of(c) {
        Some(asks) => asks.bytes,
        None => 0,
    }
}
