// The longest run of groups of zero, the first of equal ones.
ghost use Rattle.std.specs.Prelude.{cond, ◌≡◌, suc, ◌<◌, eqb};
ghost use Rattle.text_ipv6_write.specs.Ipv6.{longest, better};
ghost use Rattle.text_ipv6_write.specs.Runs.{run_of};

// A run of fewer groups is not left out.
pub const SHORTEST: usize = 2;

// Where a run begins, and how many groups it has.
#[derive(Clone, Copy)]
pub struct Run {
    pub at: usize,
    pub count: usize,
}

// How many groups of zero stand from a group on, where n stand behind it.
fn counted(g: u16, n: usize) -> usize
    requires { n < 8 }
    ensures { result ≡ cond (eqb g 0) (suc n) 0 }
{
    if g == 0 {
        return n + 1;
    }
    0
}

// The run of n groups at k, unless the one behind it is longer.
fn chosen(k: usize, n: usize, behind: Run) -> Run
    ensures { run_of result ≡ better (k, n) (run_of behind) }
{
    if behind.count <= n {
        return Run { at: k, count: n };
    }
    behind
}

// The longest run of the groups: found from the last group to the first.
pub fn longest(g: [u16; 8]) -> Run
    ensures { run_of result ≡ longest g }
{
    let mut here = 0;
    let mut best = Run { at: 8, count: 0 };
    for k in (0..8).rev() {
        here = counted(g[k], here);
        best = chosen(k, here, best);
    }
    best
}
