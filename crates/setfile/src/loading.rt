// The steps of a load: the file is judged as a whole before anything is written, and then read again to write the trie of its list into a gap of just its nodes.
ghost use Rattle.std.specs.Prelude.{◌≡◌, List, ℕ};
ghost use Rattle.nets.specs.Bits.{Bits};
ghost use Rattle.nets.specs.Lists.{nodes_l};
ghost use Rattle.nodes.specs.Words.{put};
ghost use Rattle.pool_state.specs.Kept.{held_l, enc_l, spot_l};
ghost use Rattle.pool_state.specs.Decode.{form_in};
ghost use Rattle.pool_state.specs.Steps.{Surveyed};
ghost use Rattle.setfile_format.specs.Files.{read_file, file};
ghost use Rattle.setfile.specs.LoadSteps.{Asks, Admits, FileFits, with_file, FileGap};

use listing::seated::is_first;
use nets::Refusal;
use pool_change::judging::is_public;
use pool_change::relinking::shift_behind;
use pool_check::seats::seat_of;
use pool_header::{HEAD, RECORD, stride_of};
use pool_state::Survey;
use setfile_clear::entries::file_is_clear;
use setfile_entries::reading::number;
use setfile_order::check;

// The nodes that the list of a file takes in the form of a pool, where it has so many in the first: in the second there is one for each network, and one between two.
fn nodes_in(pool: &[u32], bytes: &[u8], nodes: u32) -> u32
    requires { (f : ℕ) × (l : List Bits) × (read_file bytes.now ≡ file f l) × (nodes ≡ nodes_l l) }
    ensures { (f : ℕ) (l : List Bits) → read_file bytes.now ≡ file f l → nodes ≡ nodes_l l → result ≡ held_l (form_in pool.now) l }
{
    if is_first(pool) {
        return nodes;
    }
    let m = number(bytes, 1);
    if m == 0 {
        return 0;
    }
    2 * m - 1
}

// The pool is sound, the set is there, the file keeps its rules and is of the pool's family, and the set is empty.
pub fn ask(pool: &[u32], set: u32, bytes: &[u8]) -> Result<(Survey, u8, u32), Refusal>
    ensures { Asks pool.now set bytes.now result }
{
    let (found, seat) = seat_of(pool, set)?;
    let Some((family, nodes)) = check(bytes) else {
        return Err(Refusal::BadFile);
    };
    if family != seat.family {
        return Err(Refusal::WrongFamily);
    }
    if found.held != 0 {
        return Err(Refusal::Occupied);
    }
    let n = nodes_in(pool, bytes, nodes);
    Ok((found, family, n))
}

// Whether the set may have the list of the file as far as its mark goes: it is not public-only, or no network of the file overlaps an inner one.
pub fn is_admitted(pool: &[u32], set: u32, v: Survey, bytes: &[u8], family: u8) -> bool
    requires surveyed { Surveyed pool.now set v }
    requires bytes_value { (l : List Bits) × (read_file bytes.now ≡ file family l) }
    ensures { Admits pool.now set bytes.now family result }
{
    !is_public(pool, set, v) || file_is_clear(bytes, family)
}

// Writes the file's list, which takes n nodes, from node i on.
fn fill(pool: &mut [u32], b: usize, i: usize, n: usize, bytes: &[u8], family: u8)
    requires { (l : List Bits) × FileGap pool.old b i n bytes.now family l }
    ensures { (l : List Bits) → FileGap pool.old b i n bytes.now family l
        → pool.new ≡ put pool.old (spot_l (form_in pool.old) family b i) (enc_l (form_in pool.old) family l) }
{
    if is_first(pool) {
        setfile_build::build(pool, b, i, bytes, family);
        return;
    }
    kept_build::build(pool, family, b, i + n, bytes);
}

// Writes the file's list, which takes n nodes, in the place of the empty set; the sets behind it move.
pub fn write(pool: &mut [u32], v: Survey, bytes: &[u8], family: u8, n: u32)
    requires { (l : List Bits) × FileFits pool.old v bytes.now family n l }
    ensures { (l : List Bits) → FileFits pool.old v bytes.now family n l → pool.new ≡ with_file pool.old v n l }
{
    let b = HEAD + RECORD * (pool[2] as usize);
    let s = stride_of(pool);
    shift_behind(pool, b, s, v, n);
    fill(pool, b, v.at as usize, n as usize, bytes, family);
}
