// Writing a node of the second form: its string and the distance to its first child; and moving nodes.
ghost use Rattle.std.specs.Prelude.{◌≡◌, [], ◌∷◌, ◌+◌, ◌*◌, ◌%◌, ◌^◌, ◌≤◌, ◌<◌, length, take, drop};
ghost use Rattle.nodes.specs.Words.{put};
ghost use Rattle.kept_nodes.specs.Words.{stride, four_words, spot};
ghost use Rattle.kept_writing.specs.Writes.{Writable, Writes, Movable};

use nets::{IPV4, Net};
use nodes::writing::shift;

// Writes the words of a node of family 4 from p on.
fn write_short(w: &mut [u32], p: usize, s: Net, d: usize)
    requires { (p + 2 ≤ length w.old) × (d < 16777216) }
    ensures { w.new ≡ put w.old p ((s.len + 256 * d) ∷ (s.lo % 2 ^ 32) ∷ []) }
{
    w[p] = (s.len as usize + 256 * d) as u32;
    w[p + 1] = (s.lo % 4294967296) as u32;
}

// Writes the words of a node of another family from p on.
fn write_long(w: &mut [u32], p: usize, s: Net, d: usize)
    requires { (p + 5 ≤ length w.old) × (d < 16777216) }
    ensures { w.new ≡ put w.old p ((s.len + 256 * d) ∷ four_words s.hi s.lo) }
{
    w[p] = (s.len as usize + 256 * d) as u32;
    w[p + 1] = (s.hi / 4294967296) as u32;
    w[p + 2] = (s.hi % 4294967296) as u32;
    w[p + 3] = (s.lo / 4294967296) as u32;
    w[p + 4] = (s.lo % 4294967296) as u32;
}

// Writes node i: its string s, and the distance d to its first child, 0 for a member.
pub fn write_node(w: &mut [u32], family: u8, b: usize, i: usize, s: Net, d: usize)
    requires { Writable family w.old b i d }
    ensures { Writes family w.old w.new b i s d }
{
    if family == IPV4 {
        write_short(w, b + 2 * (i - 1), s, d);
    } else {
        write_long(w, b + 5 * (i - 1), s, d);
    }
}

// Moves k nodes from node i on to node o; the two places may overlap.
pub fn move_nodes(w: &mut [u32], family: u8, b: usize, i: usize, o: usize, k: usize)
    requires { Movable family w.old b i o k }
    ensures { w.new ≡ put w.old (spot family b o) (take (stride family * k) (drop (spot family b i) w.old)) }
{
    if family == IPV4 {
        shift(w, b + 2 * (i - 1), b + 2 * (o - 1), 2 * k);
    } else {
        shift(w, b + 5 * (i - 1), b + 5 * (o - 1), 5 * k);
    }
}
