// A lookup: header, arguments, and then the path, by the form of the pool.
ghost use Rattle.std.specs.Prelude.{true, ◌≡◌, ◌<◌, get_or, Ok, Err};
ghost use Rattle.pool_state.specs.Decode.{is_header};
ghost use Rattle.lookup.specs.Rules.{on_root, query, lookup};

use crate::beginning::path;
use crate::second::kept_path;
use nets::{Net, Refusal};
use pool_header::{FAMILY, FORM, HEAD, RECORD, SETS, is_header};
use trie_lookup::Shown;

// The number of the root of a set.
pub fn root(w: &[u32], set: u32) -> Result<u32, Refusal>
    ensures { result ≡ on_root w.now set Err Ok }
{
    if !is_header(w) {
        return Err(Refusal::Damaged);
    }
    if w[SETS] <= set {
        return Err(Refusal::NoSet);
    }
    Ok(w[HEAD + RECORD * (set as usize)])
}

// What the path of a query shows in a set.
pub fn query(w: &[u32], set: u32, net: Net) -> Shown
    requires { (is_header w.now ≡ true) × (set < get_or w.now 2 0) }
    ensures { result ≡ query w.now set net }
{
    if net.family as u32 != w[FAMILY] {
        return Shown::Refused(Refusal::WrongFamily);
    }
    let p = net.prefix_bits();
    match p {
        Ok(bits) => {
            if w[FORM] == 0 {
                return path(w, set, bits);
            }
            kept_path(w, set, net)
        }
        Err(_) => Shown::Refused(Refusal::BadNetwork),
    }
}

// What a lookup shows: header, set, network, and then the path.
pub fn lookup(w: &[u32], set: u32, net: Net) -> Shown
    ensures { result ≡ lookup w.now set net }
{
    let a = root(w, set);
    match a {
        Ok(_) => query(w, set, net),
        Err(no) => Shown::Refused(no),
    }
}
