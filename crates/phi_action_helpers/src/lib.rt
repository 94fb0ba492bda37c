// The augmented operator [tau G, W; 0, J], and a product with it. Loops over windows of one slice go by index: with `split_at_mut` they take 1.2 of
// the time.
#![tactic(auto)]

ghost use Rattle.std.specs.Prelude.{◌≡◌, false, ℕ, ◌+◌, ◌≤◌, ◌<◌, length, get_or};
ghost use Rattle.lists.specs.Loop.{tabulate};
ghost use Rattle.lists.specs.Window.{window, splice};
ghost use Rattle.lists.specs.Bounds.{Apart};
ghost use Rattle.doubles.specs.F64.{◌⊕◌, ◌⊗◌, at};
ghost use Rattle.phi_action_helpers.specs.Augmented.{scalars, coupled, generator_term, chain_term, bottom, aug_matvec};
ghost use Rattle.phi_action_helpers.specs.Sweeps.{shifted};
ghost use Rattle.phi_action_helpers.specs.Laid.{operator_in, Ready, termed, added};

use general_operator::CsrMatrix;

// The schedule: s sweeps of degree m, and the shift mu, 0 for none.
#[derive(Clone, Copy)]
pub struct SweepPlan {
    pub s: u32,
    pub m: u32,
    pub mu: f64,
}

// The scalars of one term, each divided by j s: tau, 1 and, where there is a shift, mu.
#[derive(Clone, Copy)]
pub struct Scales {
    pub shifted: bool,
    pub tau: f64,
    pub one: f64,
    pub mu: f64,
}

// The columns of W: at most three, column j gains[j] times the n values of the vectors from places[j].
#[derive(Clone, Copy)]
pub struct Coupling {
    pub places: [usize; 3],
    pub gains: [f64; 3],
    pub count: usize,
}

// Where a product's operands lie in the working memory: n + d values from w, G w of n values from av, and with a mass the quotients from q.
#[derive(Clone, Copy)]
pub struct Layout {
    pub n: usize,
    pub d: usize,
    pub w: usize,
    pub av: usize,
    pub q: usize,
    pub mass: bool,
}

// The operator by its parts: the matrix, the vectors in which its columns lie, where the operands lie, and the columns.
#[derive(Clone, Copy)]
pub struct AugmentedOperator<'a> {
    pub starts: &'a [u32],
    pub cols: &'a [u32],
    pub vals: &'a [f64],
    pub vectors: &'a [f64],
    pub l: Layout,
    pub b: Coupling,
}

// What the sweeps of a run are made with: the operator, the time and the plan.
#[derive(Clone, Copy)]
pub struct SweepArgs<'a> {
    pub o: AugmentedOperator<'a>,
    pub tau: f64,
    pub p: SweepPlan,
}

// The factor of each column, from the chain c.
pub fn scalars(gains: [f64; 3], count: usize, one: f64, c: &[f64]) -> [f64; 3]
    requires { (count ≤ 3) × (count ≤ length c.now) }
    ensures { result ≡ scalars gains count one c.now }
{
    let mut r = [0.0; 3];
    for j in 0..count {
        r[j] = gains[j] * c[j] * one;
    }
    r
}

// The generator's share of a row.
pub fn generator_term(k: Scales, av: f64, u: f64) -> f64
    ensures { result ≡ generator_term k av u }
{
    if k.shifted {
        k.tau * av - k.mu * u
    } else {
        k.tau * av
    }
}

// work[w + i] becomes the generator's share of row i: work[av + i] is row i of G w.
fn generator_terms_in(k: Scales, work: &mut [f64], w: usize, av: usize, n: usize)
    requires n_in_bounds { (w + n ≤ length work.old) × (av + n ≤ length work.old) }
    requires apart { Apart w av n }
    ensures { work.new ≡ splice w (tabulate n (λ i. generator_term k (at work.old (av + i)) (at work.old (w + i)))) work.old }
{
    for i in 0..n {
        work[w + i] = generator_term(k, work[av + i], work[w + i]);
    }
}

// work[w + i] = work[w + i] + s * vectors[p + i]
fn add_column_in(vectors: &[f64], p: usize, s: f64, work: &mut [f64], w: usize, n: usize)
    requires { (p + n ≤ length vectors.now) × (w + n ≤ length work.old) }
    ensures { work.new ≡ splice w (tabulate n (λ i. at work.old (w + i) ⊕ s ⊗ at vectors.now (p + i))) work.old }
{
    for (i, v) in vectors[p..p + n].iter().enumerate() {
        work[w + i] = work[w + i] + s * *v;
    }
}

// The columns' shares are added to work[w + i]. Column by column, so that each loop runs along the memory.
fn columns_in(o: AugmentedOperator, sc: [f64; 3], work: &mut [f64])
    requires count_bound { (o.b.count ≤ 3) × ((j : ℕ) → j < o.b.count → get_or o.b.places j 0 + o.l.n ≤ length o.vectors.now) }
    requires n_in_bounds { o.l.w + o.l.n ≤ length work.old }
    ensures { work.new ≡ splice o.entry.l.w (tabulate o.entry.l.n (λ i. coupled o.entry.vectors.now o.entry.b.places o.entry.b.count sc i (at work.old (o.entry.l.w + i)))) work.old }
{
    let count = o.b.count;
    for j in 0..count {
        add_column_in(o.vectors, o.b.places[j], sc[j], work, o.l.w, o.l.n);
    }
}

// work[w + i] becomes row i of the product: work[av + i] is row i of G w.
fn top_in(o: AugmentedOperator, sc: [f64; 3], k: Scales, work: &mut [f64])
    requires count_bound { (o.b.count ≤ 3) × ((j : ℕ) → j < o.b.count → get_or o.b.places j 0 + o.l.n ≤ length o.vectors.now) }
    requires n_in_bounds { (o.l.w + o.l.n ≤ length work.old) × (o.l.av + o.l.n ≤ length work.old) }
    requires apart { Apart o.l.w o.l.av o.l.n }
    ensures { work.new ≡ splice o.entry.l.w (tabulate o.entry.l.n (λ i. coupled o.entry.vectors.now o.entry.b.places o.entry.b.count sc i (generator_term k (at work.old (o.entry.l.av + i)) (at work.old (o.entry.l.w + i))))) work.old }
{
    generator_terms_in(k, work, o.l.w, o.l.av, o.l.n);
    columns_in(o, sc, work);
}

// Value i of the product's chain.
fn chain_term(k: Scales, c: &[f64], i: usize) -> f64
    requires { i < length c.now }
    ensures { result ≡ chain_term k (length c.now) c.now i }
{
    if i + 1 < c.len() {
        if k.shifted {
            k.one * c[i + 1] - k.mu * c[i]
        } else {
            k.one * c[i + 1]
        }
    } else if k.shifted {
        -(k.mu * c[i])
    } else {
        0.0
    }
}

// The d values of the chain from c, in place: ascending, so that each reads old places only.
pub fn chain_in(work: &mut [f64], c: usize, d: usize, k: Scales)
    requires { c + d ≤ length work.old }
    ensures { work.new ≡ splice c (bottom k d (window c d work.old)) work.old }
{
    let end = c + d;
    for i in 0..d {
        let v = chain_term(k, &work[c..end], i);
        work[c + i] = v;
    }
}

// One product with the operator, in place: `aug_matvec_inplace` of the Rust, and with k.shifted `aug_matvec_shifted`.
pub fn aug_matvec(o: AugmentedOperator, work: &mut [f64], k: Scales)
    requires { Ready o work.old }
    ensures { work.new ≡ termed o.entry.l (operator_in o.entry work.old) k work.old }
{
    let l = o.l;
    let d = l.d;
    let chain = l.w + l.n;
    let end = chain + d;
    let q = CsrMatrix {
        n: l.n,
        starts: o.starts,
        cols: o.cols,
        vals: o.vals,
    };
    csr_matvec::apply_generator(q, l.mass, work, l.q, l.w, l.av, false, k.tau);
    let sc = scalars(o.b.gains, o.b.count, k.one, &work[chain..end]);
    top_in(o, sc, k, work);
    chain_in(work, chain, d, k);
}

// The product of the vector from src, which lies before w, goes to w. There is no shift, and so no G w besides.
pub fn aug_product(o: AugmentedOperator, work: &mut [f64], k: Scales, src: usize)
    requires ready { Ready o work.old }
    requires d_bound { (src + (o.l.n + o.l.d) ≤ o.l.w) × (o.l.w + (o.l.n + o.l.d) ≤ o.l.q) × (k.shifted ≡ false) }
    ensures { work.new ≡ splice o.entry.l.w (aug_matvec (operator_in o.entry work.old) k (window src (o.entry.l.n + o.entry.l.d) work.old)) work.old }
{
    let l = o.l;
    let n = l.n;
    let d = l.d;
    let chain = l.w + n;
    let end = chain + d;
    let q = CsrMatrix {
        n: l.n,
        starts: o.starts,
        cols: o.cols,
        vals: o.vals,
    };
    csr_matvec::apply_generator(q, l.mass, work, l.q, src, l.w, true, k.tau);
    vectors::copy_in(work, chain, src + n, d);
    let sc = scalars(o.b.gains, o.b.count, k.one, &work[chain..end]);
    columns_in(o, sc, work);
    chain_in(work, chain, d, k);
}
