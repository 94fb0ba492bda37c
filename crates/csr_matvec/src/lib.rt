// Products of the generator G = -Q with a vector: one row kernel, and loops over the rows. A row's end is carried over as the next one's start:
// loops over `starts.windows(2)` take up to 1.14 of the time.
#![tactic(auto)]

ghost use Rattle.std.specs.Prelude.{◌≡◌, ◌+◌, ◌≤◌, length};
ghost use Rattle.lists.specs.Window.{window, splice};
ghost use Rattle.lists.specs.Bounds.{Disjoint, Apart};
ghost use Rattle.general_operator.specs.Csr.{csr, Valid, apply_generator};
ghost use Rattle.general_operator.specs.Matrix.{matrix};
ghost use Rattle.csr_matvec.specs.Values.{values, Stored, factored, generator_by};

use general_operator::CsrMatrix;

// dst = G src
pub fn csr_matvec(starts: &[u32], cols: &[u32], vals: &[f64], src: &[f64], dst: &mut [f64])
    requires valid { Valid (csr (length dst.old) starts.now cols.now vals.now) }
    requires src_len { length src.now ≡ length dst.old }
    ensures { dst.new ≡ apply_generator (csr (length dst.old) starts.now cols.now vals.now) src.now }
{
    let mut from = starts[0] as usize;
    for (i, value) in dst.iter_mut().enumerate() {
        let to = starts[i + 1] as usize;
        *value = row_product::row_product(cols, vals, src, from, to);
        from = to;
    }
}

// s, by tau where it is scaled. Callers give `scaled` as a constant, so that no loop tests it.
fn factored(scaled: bool, tau: f64, s: f64) -> f64
    ensures { result ≡ factored «scaled» tau s }
{
    if scaled {
        return tau * s;
    }
    s
}

// work[dst_at..] = G work[src_at..], two windows of n
fn matvec_in(q: CsrMatrix, work: &mut [f64], src_at: usize, dst_at: usize, scaled: bool, tau: f64)
    requires valid { Valid (matrix q) }
    requires n_in_bounds { src_at + q.n ≤ length work.old }
    requires n_in_bounds_2 { dst_at + q.n ≤ length work.old }
    requires apart { Apart dst_at src_at q.n }
    ensures { work.new ≡ splice dst_at (generator_by «scaled» tau (matrix q.entry) (window src_at q.entry.n work.old)) work.old }
{
    let CsrMatrix {
        n,
        starts,
        cols,
        vals,
    } = q;
    let src_end = src_at + n;
    let mut from = starts[0] as usize;
    for i in 0..n {
        let to = starts[i + 1] as usize;
        let s = row_product::row_product(cols, vals, &work[src_at..src_end], from, to);
        work[dst_at + i] = factored(scaled, tau, s);
        from = to;
    }
}

// The same where the values are a window of work too.
fn quotients_in(
    q: CsrMatrix,
    work: &mut [f64],
    q_at: usize,
    src_at: usize,
    dst_at: usize,
    scaled: bool,
    tau: f64,
)
    requires valid { Valid (csr q.n q.starts.now q.cols.now (window q_at (length q.vals.now) work.old)) }
    requires count_in_bounds { (q_at + length q.vals.now ≤ length work.old) × (src_at + q.n ≤ length work.old) × (dst_at + q.n ≤ length work.old) }
    requires disjoint { Disjoint dst_at q.n q_at (length q.vals.now) }
    requires apart { Apart dst_at src_at q.n }
    ensures { work.new ≡ splice dst_at (generator_by «scaled» tau (csr q.entry.n q.entry.starts.now q.entry.cols.now (window q_at (length q.entry.vals.now) work.old)) (window src_at q.entry.n work.old)) work.old }
{
    let CsrMatrix {
        n,
        starts,
        cols,
        vals,
    } = q;
    let q_end = q_at + vals.len();
    let src_end = src_at + n;
    let mut from = starts[0] as usize;
    for i in 0..n {
        let to = starts[i + 1] as usize;
        let w = &work[..];
        let s = row_product::row_product(cols, &w[q_at..q_end], &w[src_at..src_end], from, to);
        work[dst_at + i] = factored(scaled, tau, s);
        from = to;
    }
}

// work[dst_at..] = G work[src_at..], by tau where it is scaled: with a mass by the quotients from q_at, without one by the entries.
pub fn apply_generator(
    q: CsrMatrix,
    with_mass: bool,
    work: &mut [f64],
    q_at: usize,
    src_at: usize,
    dst_at: usize,
    scaled: bool,
    tau: f64,
)
    requires valid { Valid (csr q.n q.starts.now q.cols.now (values with_mass q_at q.vals.now work.old)) }
    requires n_in_bounds { (src_at + q.n ≤ length work.old) × (dst_at + q.n ≤ length work.old) }
    requires apart { Apart dst_at src_at q.n }
    requires stored { Stored with_mass q_at (length q.vals.now) dst_at q.n (length work.old) }
    ensures { work.new ≡ splice dst_at (generator_by «scaled» tau (csr q.entry.n q.entry.starts.now q.entry.cols.now (values with_mass q_at q.entry.vals.now work.old)) (window src_at q.entry.n work.old)) work.old }
{
    if with_mass {
        quotients_in(q, work, q_at, src_at, dst_at, scaled, tau);
    } else {
        matvec_in(q, work, src_at, dst_at, scaled, tau);
    }
}
