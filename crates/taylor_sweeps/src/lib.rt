// Taylor sweeps: terms in a row, and sweeps in a row.
#![tactic(auto)]

ghost use Rattle.std.specs.Prelude.{◌≡◌, ◌+◌, ◌≤◌, length, if◌then◌else◌};
ghost use Rattle.lists.specs.Loop.{iter};
ghost use Rattle.lists.specs.Window.{window, splice};
ghost use Rattle.lists.specs.Frame.{Kept};
ghost use Rattle.doubles.specs.F64.{+0};
ghost use Rattle.vectors.specs.Vectors.{scale};
ghost use Rattle.phi_action_helpers.specs.Sweeps.{shifted, horner_step, aug_horner_outer, rescale, sweep, run_sweeps};
ghost use Rattle.phi_action_helpers.specs.Laid.{Ready, Lined, added, horner_at, swept_at, operator_in};

use phi_action_helpers::{SweepArgs, SweepPlan};

// The m terms.
fn terms(work: &mut [f64], x: SweepArgs) -> u64
    requires ready { Ready x.o work.old }
    requires lined { Lined x.o.l }
    ensures work_after { horner_at x.entry.o.l result work.new ≡ iter (horner_step (operator_in x.entry.o work.old) x.entry.tau x.entry.p) x.entry.p.m (horner_at x.entry.o.l 0 work.old) }
    ensures kept { Kept 0 x.entry.o.l.q +0 work.old work.new }
{
    let m = x.p.m;
    let mut applied = 0u64;
    // k is the term's number, by which it is divided
    for k in 0..m {
        applied = taylor_terms::horner_step(work, x, k, applied);
    }
    applied
}

// One sweep: the field is the first term, and m terms are added to it.
fn aug_horner_outer(work: &mut [f64], x: SweepArgs) -> u64
    requires ready { Ready x.o work.old }
    requires lined { Lined x.o.l }
    ensures work_after { horner_at x.entry.o.l result work.new ≡ aug_horner_outer (operator_in x.entry.o work.old) x.entry.tau x.entry.p (window 0 (x.entry.o.l.n + x.entry.o.l.d) work.old) }
    ensures kept { Kept 0 x.entry.o.l.q +0 work.old work.new }
{
    let w = x.o.l.w;
    let len = x.o.l.n + x.o.l.d;
    vectors::copy_in(work, w, 0, len);
    terms(work, x)
}

// With a shift, work[y + i] = work[y + i] * f.
fn rescale_in(work: &mut [f64], y: usize, len: usize, p: SweepPlan, f: f64)
    requires { y + len ≤ length work.old }
    ensures { work.new ≡ splice y (if shifted p then scale f (window y len work.old) else window y len work.old) work.old }
{
    if p.mu != 0.0 {
        let end = y + len;
        vectors::scale(&mut work[y..end], f);
    }
}

// One sweep and its rescale by f. The products with the generator are added to those made before.
fn sweep(work: &mut [f64], x: SweepArgs, f: f64, applied: u64) -> u64
    requires ready { Ready x.o work.old }
    requires lined { Lined x.o.l × (f ≡ rescale x.p) × (applied + x.p.m ≤ 18446744073709551615) }
    ensures work_after { swept_at x.entry.o.l result work.new ≡ sweep (operator_in x.entry.o work.old) x.entry.tau x.entry.p (swept_at x.entry.o.l applied work.old) }
    ensures kept { Kept 0 x.entry.o.l.q +0 work.old work.new }
{
    let made = aug_horner_outer(work, x);
    let len = x.o.l.n + x.o.l.d;
    let p = x.p;
    rescale_in(work, 0, len, p, f);
    applied + made
}

// s sweeps.
pub fn run_sweeps(work: &mut [f64], x: SweepArgs) -> u64
    requires ready { Ready x.o work.old }
    requires lined { Lined x.o.l × (x.p.m ≤ 30) }
    ensures work_after { swept_at x.entry.o.l result work.new ≡ run_sweeps (operator_in x.entry.o work.old) x.entry.tau x.entry.p (window 0 (x.entry.o.l.n + x.entry.o.l.d) work.old) }
    ensures kept { Kept 0 x.entry.o.l.q +0 work.old work.new }
{
    let s = x.p.s;
    let f = dense_la::dense_exp(x.p.mu / (s as f64));
    let mut applied = 0u64;
    for _ in 0..s {
        applied = sweep(work, x, f, applied);
    }
    applied
}
