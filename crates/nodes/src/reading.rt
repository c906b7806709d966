// Tries in preorder in the pool's words, one word a node, links relative to the node. Node numbers are 1..=n, 0 is no node.
ghost use Rattle.std.specs.Prelude.{◌≡◌, cond, ◌+◌, ◌≤◌, length, take, drop};
ghost use Rattle.nodes.specs.Words.{word_at, zeros};
ghost use Rattle.nodes.specs.Parse.{Room, parse, after};

// The word of node i.
pub fn word_at(w: &[u32], b: usize, n: u32, i: u32) -> u32
    requires room { Room w.now b n }
    requires le_i { (1 ≤ i) × (i ≤ n) }
    ensures { result ≡ word_at w.now b i }
{
    let k = i as usize;
    w[b + (k - 1)]
}

// y where the test holds, else z: a choice of two words that are at hand, which trie_end wants without a branch.
fn either(test: bool, y: u64, z: u64) -> u64
    ensures { result ≡ cond test y z }
{
    if test {
        return y;
    }
    z
}

// The number after the trie that starts at node root, at most fuel deep and within n nodes, or 0 where there is none. A processor cannot predict which kind of node
// comes next, so no branch asks for it: every turn stores a second child as if there were one, and only sp tells the kinds apart. Two children move it up, a leaf
// moves it down, and at 0 all is read. The second children still to come are on a stack, the entries from 1 to below sp, each as 512 times its number plus its
// depth; that of an even word falls between two numbers, so that it never comes next. The entry that a leaf would take is read before the turn's own is stored, which
// a load right behind the store would wait for. The loop and the stack are by hand: the check has a bar of speed that other forms miss (docs/DECISIONS.md).
pub fn trie_end(w: &[u32], b: usize, n: u32, fuel: u32, root: u32) -> u32
    requires room { Room w.now b n }
    requires le_root { (1 ≤ root) × (fuel ≤ 129) }
    ensures { result ≡ after root (parse w.now b n fuel root) }
{
    let mut stack = [0u64; 131];
    let limit = fuel as u64;
    let mut sp: usize = 1;
    let mut i = root;
    let mut at = 512 * (root as u64);
    loop {
        if limit <= at % 256 {
            return 0;
        }
        if n < i {
            return 0;
        }
        let x = word_at(w, b, n, i);
        let top = stack[sp - 1];
        stack[sp] = at + 256 * (x as u64) - 255;
        i += 1;
        let two = usize::from(2 < x);
        let leaf = usize::from(x == 0);
        sp = sp + two - leaf;
        if sp == 0 {
            return i;
        }
        let down = at + 513;
        at = either(x == 0, top, down);
        if at / 256 != down / 256 {
            return 0;
        }
    }
}

// How many of the m words from place p on are 0: the networks of a trie that stands there.
pub fn zeros_at(w: &[u32], p: usize, m: u32) -> u32
    requires { p + m ≤ length w.now }
    ensures { result ≡ zeros (take m (drop p w.now)) }
{
    let mut count: u32 = 0;
    for x in &w[p..p + m as usize] {
        count += u32::from(*x == 0);
    }
    count
}
