// The branch point at which a network leaves the one before it.
ghost use Rattle.std.specs.Prelude.{◌≡◌, ℕ, suc, ◌-◌, ◌≤◌, length};
ghost use Rattle.nets.specs.Bits.{Bits};
ghost use Rattle.nets.specs.Networks.{net_from};
ghost use Rattle.nodes.specs.Words.{put};
ghost use Rattle.kept_nodes.specs.Words.{node_words, spot};
ghost use Rattle.kept_writing.specs.Writes.{Writable};
ghost use Rattle.kept_build.specs.Building.{Begins};

use kept_writing::write_node;
use nets::Net;
use setfile_order::Head;

// The network of the first bits of a network, so many.
fn leading(n: Net, len: u8) -> Net
    requires { (f : ℕ) × (s : Bits) × Begins f n s × (len ≡ length s) }
    ensures { (f : ℕ) (s : Bits) → Begins f n s → len ≡ length s → result ≡ net_from f s }
{
    n.with_new_prefix(len).unwrap_or(n)
}

// Writes at node i the branch point at which the head leaves the network before it; its first child is at node m.
pub fn branch(w: &mut [u32], family: u8, b: usize, i: usize, m: usize, h: Head)
    requires { (s : Bits) × Begins family h.net s × (h.deep ≡ suc (length s)) × (i ≤ m) × Writable family w.old b i (m - i) }
    ensures { (s : Bits) → Begins family h.net s → h.deep ≡ suc (length s)
        → w.new ≡ put w.old (spot family b i) (node_words family s (m - i)) }
{
    let s = leading(h.net, (h.deep - 1) as u8);
    write_node(w, family, b, i, s, m - i);
}
