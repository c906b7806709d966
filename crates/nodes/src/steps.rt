// Steps down a trie in the used words.
ghost use Rattle.std.specs.Prelude.{◌≡◌, List, ℕ, ◌+◌, ◌-◌, ◌≤◌, ◌<◌, length};
ghost use Rattle.nets.specs.Tries.{Trie};
ghost use Rattle.nodes.specs.Words.{place, word_at};
ghost use Rattle.nodes.specs.Segments.{Segment, middle_of, Views};

// The word of node i.
pub fn word(w: &[u32], b: usize, i: usize) -> usize
    requires { (1 ≤ i) × (place b i < length w.now) }
    ensures { (result ≡ word_at w.now b i) × (result < 4294967296) }
{
    w[b + (i - 1)] as usize
}

// Where the second child of node i begins, or would: x is the distance to it, e the node's end.
pub fn middle(x: usize, i: usize, e: usize) -> usize
    requires { (x < 4294967296) × (i < 4294967296) }
    ensures { result ≡ middle_of x i e }
{
    if x == 0 {
        return e;
    }
    i + x
}

// What is seen of a trie at its root: nothing, a leaf, or an inner node, with where its second child begins, or would.
#[derive(Clone, Copy)]
pub enum View {
    Nothing,
    Leaf,
    Inner(usize),
}

// What stands from node i up to node e.
pub fn look(w: &[u32], b: usize, i: usize, e: usize) -> View
    requires { (t : Trie) × (rest : List ℕ) × (u : ℕ) × Segment w.now b i e u t rest }
    ensures { Views w.now b i e result }
{
    if i == e {
        return View::Nothing;
    }
    let x = word(w, b, i);
    if x == 0 {
        return View::Leaf;
    }
    View::Inner(middle(x / 2, i, e))
}
