// Writing in the pool's words: moving a block, storing a node's word, linking a node to its children.
ghost use Rattle.std.specs.Prelude.{◌≡◌, [], ◌∷◌, ◌+◌, ◌≤◌, ◌<◌, length, take, drop};
ghost use Rattle.nodes.specs.Words.{put, place};
ghost use Rattle.nodes.specs.Links.{to_first, to_second, linked};

// Moves count words from one place to another; the two may overlap.
pub fn shift(w: &mut [u32], from: usize, to: usize, count: usize)
    requires { (from + count ≤ length w.old) × (to + count ≤ length w.old) }
    ensures { w.new ≡ put w.old to (take count (drop from w.old)) }
{
    w.copy_within(from..from + count, to);
}

// Writes the word of node i.
pub fn store(w: &mut [u32], b: usize, i: usize, x: usize)
    requires { (1 ≤ i) × ((place b i < length w.old) × (x < 4294967296)) }
    ensures { w.new ≡ put w.old (place b i) (x ∷ []) }
{
    w[b + (i - 1)] = x as u32;
}

// The distance from node i to its first child, which ends at m, and to its second, which begins at m and ends at e.
fn first(i: usize, m: usize) -> usize
    requires { i < 4294967296 }
    ensures { result ≡ to_first i m }
{
    usize::from(i + 1 != m)
}

fn second(i: usize, m: usize, e: usize) -> usize
    requires { i ≤ m }
    ensures { result ≡ to_second i m e }
{
    if m == e { 0 } else { m - i }
}

// Writes the word of node i, whose first child ends at m and whose second child ends at e.
pub fn links(w: &mut [u32], b: usize, i: usize, m: usize, e: usize)
    requires { (1 ≤ i) × ((i ≤ m) × ((m < 2147483648) × (place b i < length w.old))) }
    ensures { w.new ≡ put w.old (place b i) (linked i m e ∷ []) }
{
    let x = first(i, m);
    let y = second(i, m, e);
    store(w, b, i, x + 2 * y);
}
