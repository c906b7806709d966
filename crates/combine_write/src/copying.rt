// Excluding nothing copies a set whose members stay apart: its words are moved as a block.
ghost use Rattle.std.specs.Prelude.{◌≡◌, ◌+◌, ◌≤◌, length, take, drop};
ghost use Rattle.nodes.specs.Words.{put, place};
ghost use Rattle.combine_write.specs.Steps.{is_copy};

use combine_sources::{EXCLUDE_APART, Sources};
use nodes::writing::shift;

// Whether an operation leaves its first source as it is: nothing is excluded from it.
pub fn is_copy(op: usize, s: Sources) -> bool
    ensures { result ≡ is_copy op s }
{
    if op == EXCLUDE_APART {
        return s.second == 0;
    }
    false
}

// Writes the n nodes from node i on once more, from node o on. There are none where i is 0.
pub fn copy(w: &mut [u32], b: usize, i: usize, o: usize, n: u32)
    requires { (i ≡ 0 → n ≡ 0) × ((1 ≤ o) × ((place b i + n ≤ length w.old) × (place b o + n ≤ length w.old))) }
    ensures { w.new ≡ put w.old (place b o) (take n (drop (place b i) w.old)) }
{
    if i == 0 {
        return;
    }
    shift(w, b + (i - 1), b + (o - 1), n as usize);
}
