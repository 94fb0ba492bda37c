// The end of a substep: the field at the accepted length, the counts, and the length proposed next.
#![tactic(auto)]

ghost use Rattle.std.specs.Prelude.{◌≡◌, List, ◌+◌, ◌*◌, ◌≤◌, ◌<◌, length, Float, if◌then◌else◌};
ghost use Rattle.lists.specs.Loop.{tabulate};
ghost use Rattle.lists.specs.Walk.{on};
ghost use Rattle.lists.specs.Window.{window, splice};
ghost use Rattle.lists.specs.Frame.{Kept};
ghost use Rattle.doubles.specs.F64.{◌⊖◌, ◌⋖◌, +0, 1f};
ghost use Rattle.retry.specs.Retry.{retry};
ghost use Rattle.general_operator.specs.Csr.{Csr};
ghost use Rattle.phi_action_helpers.specs.declared.Coupling.{Coupling};
ghost use Rattle.phi_action_helpers.specs.declared.Layout.{Layout};
ghost use Rattle.gram_schmidt.specs.Memory.{column, setting_at};
ghost use Rattle.krylov_advance.specs.Run.{combined, shorter, counted, unfinished, standing, substep, run};
ghost use Rattle.krylov_advance.specs.declared.KrylovPhiReport.{KrylovPhiReport};
ghost use Rattle.krylov_advance.specs.Memory.{products, stepped, progress_at};

use checks::Refusal;
use gram_schmidt::Krylov;
use phi_action_helpers::{Coupling, Layout};
use trial_steps::{Step, Trial};

const EPSILON: f64 = 2.220446049250313e-16;

// Of a run: products with the generator, accepted substeps, rejected lengths, the accumulated error estimate, and the shortest and the
// last accepted length, both 0 where there is none.
#[derive(Clone, Copy)]
pub struct KrylovPhiReport {
    pub matvecs: usize,
    pub substeps: usize,
    pub rejected: usize,
    pub est_error: f64,
    pub shortest: f64,
    pub last: f64,
}

// The time reached, the length proposed next, and the field's norm.
#[derive(Clone, Copy)]
pub struct Control {
    pub time: f64,
    pub next: f64,
    pub beta: f64,
}

// After a substep: the run goes on, or has ended as a RunAnswer says.
#[derive(Clone, Copy)]
pub enum Progress {
    On(Control, KrylovPhiReport),
    Finished(Control, KrylovPhiReport),
    Refused(Refusal, Control, KrylovPhiReport),
}

// A result, or a refusal; the field is the last accepted one.
#[derive(Clone, Copy)]
pub enum RunAnswer {
    Finished(Control, KrylovPhiReport),
    Refused(Refusal, Control, KrylovPhiReport),
}

// The field: beta times the columns by their coefficients, added up from zeros.
fn combine_columns(work: &mut [f64], y_at: usize, len: usize, beta: f64, count: usize, trial: Trial)
    requires { (count ≤ 130) × (count * len ≤ y_at) × (y_at + len ≤ length work.old) × (length trial.f ≡ 130) }
    ensures { work.new ≡ splice y_at (combined beta (tabulate count (column len work.old)) (window 0 count trial.f) len) work.old }
{
    vectors::clear_in(work, y_at, len);
    for (i, f) in trial.f[..count].iter().enumerate() {
        vectors::axpy_in(work, y_at, i * len, len, beta * *f);
    }
}

// The length proposed after an accepted one.
fn next_length(m: usize, tol: f64, t: f64, err: f64, time: f64) -> f64
    ensures { result ≡ if +0 ⋖ err then retry m tol t err else (1f ⊖ time) }
{
    if 0.0 < err {
        retry::retry(m, tol, t, err)
    } else {
        1.0 - time
    }
}

// A run goes on while its norm is not 0 and its time is below 1.
fn unfinished(c: Control) -> bool
    ensures { (report : KrylovPhiReport) (y : List Float) → result ≡ unfinished (record { control = c; report = report; y = y }) }
{
    c.beta != 0.0 && c.time < 1.0
}

// The shortest accepted length, t among them; of none so far it is t.
fn shorter(substeps: usize, shortest: f64, t: f64) -> f64
    ensures { result ≡ shorter substeps shortest t }
{
    if substeps == 0 {
        t
    } else {
        float::min(shortest, t)
    }
}

// The report after an accepted length t that took `applied` products and added err to the estimate.
fn counted(
    r: KrylovPhiReport,
    applied: usize,
    rejections: usize,
    t: f64,
    err: f64,
) -> KrylovPhiReport
    requires { (r.matvecs ≤ 1000000000) × (r.substeps ≤ 1000000) × (r.rejected ≤ 1000000000) × (applied ≤ 1000) × (rejections ≤ 10) }
    ensures { result ≡ counted r applied rejections t err }
{
    KrylovPhiReport {
        matvecs: r.matvecs + applied,
        substeps: r.substeps + 1,
        rejected: r.rejected + rejections,
        est_error: r.est_error + err,
        shortest: shorter(r.substeps, r.shortest, t),
        last: t,
    }
}

// The state after an accepted length, `applied` products made.
pub fn advance(
    work: &mut [f64],
    l: Layout,
    k: Krylov,
    c: Control,
    r: KrylovPhiReport,
    applied: usize,
    s: Step,
    trial: Trial,
) -> Progress
    requires count_bound { (s.count ≤ 130) × (s.count * (l.n + l.d) ≤ k.y) × (k.y + (l.n + l.d) ≤ l.q) × (k.y + (l.n + l.d) ≤ length work.old) × (length trial.f ≡ 130) }
    requires matvecs_bound { (r.matvecs ≤ 1000000000) × (r.substeps ≤ 1000000) × (r.rejected ≤ 1000000000) × (applied ≤ 1000) × (s.rejections ≤ 10) }
    ensures work_after { (b : Coupling) (q : Csr) (vectors : List Float) → progress_at l k result work.new ≡ standing (stepped l k c r applied s trial.f (setting_at l b k q vectors) work.old) (unfinished (stepped l k c r applied s trial.f (setting_at l b k q vectors) work.old)) }
    ensures kept { Kept 0 l.q +0 work.old work.new }
{
    let len = l.n + l.d;
    let y = k.y;
    let end = y + len;
    combine_columns(work, y, len, c.beta, s.count, trial);
    let time = c.time + s.t;
    let control = Control {
        time,
        next: next_length(k.m, k.tol, s.t, s.err, time),
        beta: gram_schmidt::norm2(&work[y..end]),
    };
    let err = float::max(s.err, k.anorm * EPSILON * c.beta);
    let report = counted(r, applied, s.rejections, s.t, err);
    if unfinished(control) {
        Progress::On(control, report)
    } else {
        Progress::Finished(control, report)
    }
}
