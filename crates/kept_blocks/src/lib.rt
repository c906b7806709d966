// What is left of a member without a network inside it: the blocks beside the network, one of each length, with the branch points over them.
ghost use Rattle.std.specs.Prelude.{not, List, [], ◌≡◌, ℕ, ◌+◌, ◌≤◌, ◌<◌, length};
ghost use Rattle.nets.specs.Bits.{Bits};
ghost use Rattle.nets.specs.Networks.{width, net_from};
ghost use Rattle.nets.specs.Tries.{Trie, leaf, fork};
ghost use Rattle.nets.specs.TrieOps.{remove_t};
ghost use Rattle.nodes.specs.Words.{put};
ghost use Rattle.trie_paths.specs.Spans.{snoc};
ghost use Rattle.branch_points.specs.KeptTries.{kept_size};
ghost use Rattle.kept_nodes.specs.Words.{kept_enc, spot};
ghost use Rattle.kept_acts.specs.Acts.{Acts, Became};
ghost use Rattle.kept_blocks.specs.Blocks.{Beside, Blocks};
ghost use Rattle.kept_plan.specs.Change.{Way};

use kept_reading::strings::{bit_at, child};
use kept_writing::{move_nodes, write_node};
use nets::Net;

// Writes a branch point with the string of the network path at node i, and the half of it that is not on the side of the bit; answers where the m nodes of
// the other half are still to be written.
fn beside(w: &mut [u32], family: u8, b: usize, i: usize, path: Net, bit: bool, m: usize) -> usize
    requires { (n : ℕ) × (p : Bits) × (path ≡ net_from family p) × Beside family w.old b n i p m }
    ensures { ((i < result) × (result ≤ i + 2)) × ((n : ℕ) (p : Bits) (x : Trie) → path ≡ net_from family p → Beside family w.old b n i p m
        → kept_size x ≡ m
        → put w.new (spot family b result) (kept_enc family (snoc p bit) x) ≡ put w.old (spot family b i) (kept_enc family p (fork bit x leaf))) }
{
    let other = child(path, !bit);
    if bit {
        write_node(w, family, b, i, path, m + 1);
        write_node(w, family, b, i + m + 1, other, 0);
        return i + 1;
    }
    write_node(w, family, b, i, path, 2);
    write_node(w, family, b, i + 1, other, 0);
    i + 2
}

// Writes the blocks beside the network q inside the member with the string of the network path, from node i on.
fn blocks(w: &mut [u32], family: u8, b: usize, i: usize, path: Net, q: Net)
    requires { (n : ℕ) × (p : Bits) × (r : Bits) × (path ≡ net_from family p) × Blocks family w.old b n i p r q }
    ensures { (n : ℕ) (p r : Bits) → path ≡ net_from family p → Blocks family w.old b n i p r q
        → w.new ≡ put w.old (spot family b i) (kept_enc family p (remove_t r leaf)) }
{
    let mut k = i;
    // The network itself counts the turns: it is a bit longer after each.
    let mut x = path;
    while x.len + 1 < q.len {
        let bit = bit_at(q, x.len);
        let m = 2 * (q.len - x.len) as usize - 3;
        k = beside(w, family, b, k, x, bit, m);
        x = child(x, bit);
    }
    let last = child(x, !bit_at(q, x.len));
    write_node(w, family, b, k, last, 0);
}

// Puts what is left of a member without the network q in its place, the trie from node i up to node e.
pub fn halve(
    w: &mut [u32],
    family: u8,
    b: usize,
    i: usize,
    e: usize,
    u: usize,
    path: Net,
    q: Net,
) -> usize
    requires { (n : ℕ) × (p : Bits) × (r : Bits) × (s : Bits) × (t : Trie) × (rest : List ℕ) × (path ≡ net_from family p) × Way family p r q × (r ≡ []
        → ⊥) × Acts family w.old b n i e u p s t rest (kept_size (remove_t r leaf)) }
    ensures { (n : ℕ) (p r s : Bits) (t : Trie) (rest : List ℕ) → path ≡ net_from family p → Way family p r q → (r ≡ [] → ⊥)
        → Acts family w.old b n i e u p s t rest (kept_size (remove_t r leaf))
        → Became family w.old w.new b i result (kept_enc family p (remove_t r leaf)) (kept_size (remove_t r leaf)) rest }
{
    let k = 2 * (q.len - path.len) as usize - 1;
    move_nodes(w, family, b, e, i + k, u - e);
    blocks(w, family, b, i, path, q);
    i + k
}
