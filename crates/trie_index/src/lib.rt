// The index of a trie by its first eight bits: where a walk stands after them. Its 256 words stand behind the nodes; numbers in it are relative to the trie's root.
ghost use Rattle.std.specs.Prelude.{◌≡◌, cond, ℕ, ◌+◌, ◌*◌, ◌/◌, ◌%◌, ◌≤◌, ◌<◌, eqb, length, get_or};
ghost use Rattle.nets.specs.Bits.{bits};
ghost use Rattle.nets.specs.Tries.{Trie, side};
ghost use Rattle.nodes.specs.Parse.{Room};
ghost use Rattle.nodes.specs.Words.{put, word_at};
ghost use Rattle.trie_index.specs.Index.{standing, index_t, is_at, Rooted};

use nodes::reading::word_at;

// The words of an index.
pub const INDEX: usize = 256;

// The keys of the strings of at most eight bits are below it.
const KEYS: usize = 512;

// The distance to the child on the side of the bit, by the word x of a node: 0 where it has none.
pub fn turn(bit: bool, x: u32) -> u32
    ensures { result ≡ side bit (x % 2) (x / 2) }
{
    if bit {
        return x / 2;
    }
    x % 2
}

// The word of a walk before its first bit.
fn begin(root: u32) -> u32
    ensures { result ≡ cond (eqb root 0) 16 0 }
{
    if root == 0 {
        return 16;
    }
    0
}

// The word of the node where a walk stands, by the word s of the walk: 0 where it stands at none.
fn under(w: &[u32], b: usize, n: u32, root: u32, s: u32) -> u32
    requires { Room w.now b n × (s % 32 < 16 → (1 ≤ root + s / 32) × (root + s / 32 ≤ n)) }
    ensures { (s % 32 < 16 → result ≡ word_at w.now b (root + s / 32)) × (16 ≤ s % 32 → result ≡ 0) }
{
    if s % 32 < 16 {
        return word_at(w, b, n, root + s / 32);
    }
    0
}

// The word of a walk after a bit more, by its word s before, the word x of the node where it stands, and the distance c to the child on the bit's side: at a
// leaf and at an absence it stays.
fn onward(s: u32, x: u32, c: u32) -> u32
    requires { s + 32 * c < 4294967295 }
    ensures { result ≡ cond (eqb x 0) s (cond (eqb c 0) (17 + s % 32) (s + 32 * c + 1)) }
{
    if x == 0 {
        return s;
    }
    if c == 0 {
        return 17 + s % 32;
    }
    s + 32 * c + 1
}

// The words of the strings of at most eight bits, in one pass over the levels. A string's word stands at its key, the number whose binary digits are a one and
// then the string: those of the two strings with a bit more stand at twice that and at the next.
fn top_words(w: &[u32], b: usize, n: u32, root: u32) -> [u32; KEYS]
    requires { Room w.now b n × ((t : Trie) × Rooted w.now b n root t) }
    ensures { (t : Trie) → Rooted w.now b n root t → (v : ℕ) → v < 256 → get_or result (256 + v) 0 ≡ standing (bits 8 v) 0 0 t }
{
    let mut words = [0u32; KEYS];
    words[1] = begin(root);
    for k in 1..INDEX {
        let s = words[k];
        let x = under(w, b, n, root, s);
        words[2 * k] = onward(s, x, turn(false, x));
        words[2 * k + 1] = onward(s, x, turn(true, x));
    }
    words
}

// The words from place p on are the index of the trie whose root has the number `root`.
pub fn is_index(w: &[u32], b: usize, n: u32, root: u32, p: usize) -> bool
    requires room { Room w.now b n × (p + 256 ≤ length w.now) }
    requires rooted { (t : Trie) × Rooted w.now b n root t }
    ensures { (t : Trie) → Rooted w.now b n root t → result ≡ is_at w.now p (index_t t) }
{
    let words = top_words(w, b, n, root);
    for v in 0..INDEX {
        if w[p + v] != words[INDEX + v] {
            return false;
        }
    }
    true
}

// Writes from place p on, which is behind the nodes, the index of the trie whose root has the number `root`.
pub fn write_index(w: &mut [u32], b: usize, n: u32, root: u32, p: usize)
    requires room { Room w.old b n × (p + 256 ≤ length w.old) × (b + n ≤ p) }
    requires rooted { (t : Trie) × Rooted w.old b n root t }
    ensures { (t : Trie) → Rooted w.old b n root t → w.new ≡ put w.old p (index_t t) }
{
    let words = top_words(w, b, n, root);
    for v in 0..INDEX {
        w[p + v] = words[INDEX + v];
    }
}
