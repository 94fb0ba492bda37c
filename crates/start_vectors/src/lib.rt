// The first vector of a run: w_0, or zeros, and the chain behind it.
#![tactic(auto)]

ghost use Rattle.std.specs.Prelude.{◌≡◌, ◌+◌, ◌≤◌, length};
ghost use Rattle.lists.specs.Window.{splice};
ghost use Rattle.checks.specs.First.{first};
ghost use Rattle.combination.specs.Combination.{combination_start, init_aug_vector};

// w_0, the first n values of w, then the chain: zeros, and 1 / eta at its end.
pub fn combination_start(n: usize, w: &[f64], d: usize, inv: f64, work: &mut [f64])
    requires { (n ≤ length w.now) × (n + d ≤ length work.old) }
    ensures { work.new ≡ splice 0 (combination_start n w.now d inv) work.old }
{
    vectors::copy_from(work, 0, w, 0, n);
    vectors::clear_in(work, n, d);
    if d > 0 {
        work[n + d - 1] = inv;
    }
}

// For phi_0 v and an empty chain, for phi_k zeros and 1 / eta at place k - 1 of the chain.
pub fn init_aug_vector(n: usize, v: &[f64], k: usize, inv: f64, work: &mut [f64])
    requires { (length v.now ≡ n) × (n + 3 ≤ length work.old) × (k ≤ 3) }
    ensures { work.new ≡ splice 0 (init_aug_vector n v.now inv k) work.old }
{
    if k == 0 {
        vectors::copy_from(work, 0, v, 0, n);
        vectors::clear_in(work, n, 3);
        return;
    }
    vectors::clear_in(work, 0, n + 3);
    work[n + k - 1] = inv;
}
