// One term of a Taylor sweep, added to the field. Loops over windows of one slice go by index: with `split_at_mut` they take 1.2 of the time at
// 1,000 places.
#![tactic(auto)]

ghost use Rattle.std.specs.Prelude.{◌≡◌, false, ◌+◌, ◌≤◌, ◌<◌, length, get_or};
ghost use Rattle.lists.specs.Loop.{tabulate, zip_with};
ghost use Rattle.lists.specs.Window.{window, splice};
ghost use Rattle.lists.specs.Frame.{Kept};
ghost use Rattle.lists.specs.Bounds.{Apart};
ghost use Rattle.doubles.specs.F64.{◌⊕◌, ◌⊗◌, +0, at};
ghost use Rattle.phi_action_helpers.specs.Augmented.{scalars, generator_term};
ghost use Rattle.phi_action_helpers.specs.Sweeps.{shifted, scales, horner_step};
ghost use Rattle.phi_action_helpers.specs.Laid.{Ready, Lined, termed, added, horner_at, operator_in};

use general_operator::CsrMatrix;
use phi_action_helpers::{AugmentedOperator, Scales, SweepArgs, SweepPlan};

// The scalars of term j.
fn scales_of(tau: f64, p: SweepPlan, j: u32) -> Scales
    ensures { result ≡ scales tau p j }
{
    let js = (j as f64) * (p.s as f64);
    Scales {
        shifted: p.mu != 0.0,
        tau: tau / js,
        one: 1.0 / js,
        mu: p.mu / js,
    }
}

// work[y + i] = work[y + i] + work[w + i]
fn add_in(work: &mut [f64], y: usize, w: usize, len: usize)
    requires len_in_bounds { (y + len ≤ length work.old) × (w + len ≤ length work.old) }
    requires apart { Apart y w len }
    ensures { work.new ≡ splice y (zip_with ◌⊕◌ (window y len work.old) (window w len work.old)) work.old }
{
    for i in 0..len {
        let a = work[y + i];
        let b = work[w + i];
        work[y + i] = a + b;
    }
}

// Where W has one column, work[w + i] becomes row i of the next term, and is added to the field: what `top_in` and `add_in` do, in one loop.
fn term_rows_in(o: AugmentedOperator, k: Scales, s: f64, work: &mut [f64])
    requires n_in_bounds { get_or o.b.places 0 0 + o.l.n ≤ length o.vectors.now }
    requires n_le_w { (o.l.n ≤ o.l.w) × (o.l.w + o.l.n ≤ o.l.av) × (o.l.av + o.l.n ≤ length work.old) }
    ensures { work.new ≡ splice 0 (tabulate o.entry.l.n (λ i. at work.old i ⊕ (generator_term k (at work.old (o.entry.l.av + i)) (at work.old (o.entry.l.w + i)) ⊕ s ⊗ at o.entry.vectors.now (get_or o.entry.b.places 0 0 + i)))) (splice o.entry.l.w (tabulate o.entry.l.n (λ i. generator_term k (at work.old (o.entry.l.av + i)) (at work.old (o.entry.l.w + i)) ⊕ s ⊗ at o.entry.vectors.now (get_or o.entry.b.places 0 0 + i))) work.old) }
{
    let n = o.l.n;
    let w = o.l.w;
    let av = o.l.av;
    let p = o.b.places[0];
    let vectors = o.vectors;
    for i in 0..n {
        let t = phi_action_helpers::generator_term(k, work[av + i], work[w + i])
            + s * vectors[p + i];
        let u = work[i];
        work[w + i] = t;
        work[i] = u + t;
    }
}

// The next term and the field, where W has one column.
fn single_term_in(o: AugmentedOperator, work: &mut [f64], k: Scales)
    requires ready { Ready o work.old }
    requires lined { Lined o.l × (o.b.count ≡ 1) }
    ensures { work.new ≡ added o.entry.l (termed o.entry.l (operator_in o.entry work.old) k work.old) }
{
    let l = o.l;
    let n = l.n;
    let d = l.d;
    let chain = l.w + n;
    let end = chain + d;
    let q = CsrMatrix {
        n: l.n,
        starts: o.starts,
        cols: o.cols,
        vals: o.vals,
    };
    csr_matvec::apply_generator(q, l.mass, work, l.q, l.w, l.av, false, k.tau);
    let sc = phi_action_helpers::scalars(o.b.gains, 1, k.one, &work[chain..end]);
    term_rows_in(o, k, sc[0], work);
    phi_action_helpers::chain_in(work, chain, d, k);
    add_in(work, n, chain, d);
}

// The next term, and the field with it added.
fn term_in(o: AugmentedOperator, work: &mut [f64], k: Scales)
    requires ready { Ready o work.old }
    requires lined { Lined o.l }
    ensures { work.new ≡ added o.entry.l (termed o.entry.l (operator_in o.entry work.old) k work.old) }
{
    if o.b.count == 1 {
        single_term_in(o, work, k);
    } else {
        phi_action_helpers::aug_matvec(o, work, k);
        add_in(work, 0, o.l.w, o.l.n + o.l.d);
    }
}

// Term k + 1: it takes the place of the last one and is added to the field. The products with the generator are counted.
pub fn horner_step(work: &mut [f64], x: SweepArgs, k: u32, applied: u64) -> u64
    requires ready { Ready x.o work.old }
    requires lined { Lined x.o.l × (k < x.p.m) × (applied ≤ k) }
    ensures work_after { horner_at x.entry.o.l result work.new ≡ horner_step (operator_in x.entry.o work.old) x.entry.tau x.entry.p k (horner_at x.entry.o.l applied work.old) }
    ensures kept { Kept 0 x.entry.o.l.q +0 work.old work.new }
{
    let s = scales_of(x.tau, x.p, k + 1);
    term_in(x.o, work, s);
    applied + 1
}
