// Comparing words.
ghost use Rattle.std.specs.Prelude.{eqb, ◌≡◌, ◌+◌, ◌*◌, ◌≤◌, length};
ghost use Rattle.compare.specs.Rules.{Agree, Nodes};
ghost use Rattle.pool_state.specs.Steps.{spot_by};

// How many words are compared before it is asked whether one differed.
const BLOCK: usize = 64;

// How many of the n words from place p on are not those from place q on. With no way out of the loop, several words are compared in one step.
fn others(w: &[u32], p: usize, q: usize, n: usize) -> u32
    requires { (p + n ≤ length w.now) × (q + n ≤ length w.now) × (n ≤ 64) }
    ensures { Agree w.now p q n (eqb result 0) }
{
    let mut count: u32 = 0;
    for k in 0..n {
        count += u32::from(w[p + k] != w[q + k]);
    }
    count
}

// Whether the n words from place p on are those from place q on.
fn same_words(w: &[u32], p: usize, q: usize, n: usize) -> bool
    requires { (p + n ≤ length w.now) × (q + n ≤ length w.now) }
    ensures { Agree w.now p q n result }
{
    let mut k = 0;
    while BLOCK <= n - k {
        if others(w, p + k, q + k, BLOCK) != 0 {
            return false;
        }
        k += BLOCK;
    }
    others(w, p + k, q + k, n - k) == 0
}

// Whether the n nodes from node i on, of s words each, are those from node j on. The nodes begin at b.
pub fn same_nodes(w: &[u32], b: usize, s: usize, i: usize, j: usize, n: usize) -> bool
    requires { Nodes w.now b s i j n }
    ensures { Agree w.now (spot_by s b i) (spot_by s b j) (s * n) result }
{
    same_words(w, b + s * (i - 1), b + s * (j - 1), s * n)
}
