// The run over unit time: substeps until the time is 1, from a field scaled by a power of two.
#![tactic(auto)]

ghost use Rattle.std.specs.Prelude.{◌≡◌, List, ◌+◌, ◌*◌, ◌≤◌, Some, Float};
ghost use Rattle.lists.specs.Walk.{on, walk};
ghost use Rattle.lists.specs.Window.{window};
ghost use Rattle.lists.specs.Frame.{Kept};
ghost use Rattle.doubles.specs.F64.{+0};
ghost use Rattle.vectors.specs.Vectors.{scale};
ghost use Rattle.phi_action_helpers.specs.declared.Layout.{Layout};
ghost use Rattle.phi_action_helpers.specs.Laid.{operator_in};
ghost use Rattle.gram_schmidt.specs.Memory.{setting_in, RoomFor};
ghost use Rattle.krylov_advance.specs.Run.{substep, spent, started, run, back, clamp_m, expv, expv_by};
ghost use Rattle.krylov_advance.specs.declared.KrylovPhiReport.{KrylovPhiReport};
ghost use Rattle.krylov_advance.specs.Memory.{state_at, progress_at, end_at};

use checks::{Reason, Refusal};
use gram_schmidt::Krylov;
use krylov_advance::{Control, KrylovPhiReport, Progress, RunAnswer};
use phi_action_helpers::{AugmentedOperator, Layout};
use pow2::Scale;

// At most `limit` substeps.
fn run_substeps(
    o: AugmentedOperator,
    work: &mut [f64],
    k: Krylov,
    limit: usize,
    c: Control,
    r: KrylovPhiReport,
) -> Progress
    requires room { RoomFor o k work.old }
    requires m_bound { (k.m ≤ 128) × (limit ≤ 1000000) × (r.matvecs ≡ 0) × (r.substeps ≡ 0) × (r.rejected ≡ 0) }
    ensures work_after { progress_at o.entry.l k result work.new ≡ walk (λ _. substep (setting_in o.entry k work.old)) limit 0 (on (state_at o.entry.l k c r work.old)) }
    ensures kept { Kept 0 o.entry.l.q +0 work.old work.new }
{
    let mut reached = Progress::On(c, r);
    for _ in 0..limit {
        let Progress::On(control, report) = reached else {
            return reached;
        };
        reached = phi_krylov_arnoldi::substep(o, work, k, control, report);
    }
    reached
}

// Refused for its limit: a run that has not ended.
fn spent(o: Progress) -> RunAnswer
    ensures { (l : Layout) (k : Krylov) (w : List Float) → end_at l k result w ≡ spent (progress_at l k o w) }
{
    match o {
        Progress::On(c, r) => RunAnswer::Refused(
            Refusal {
                reason: Reason::SubstepLimit,
                value: r.est_error,
            },
            c,
            r,
        ),
        Progress::Finished(c, r) => RunAnswer::Finished(c, r),
        Progress::Refused(e, c, r) => RunAnswer::Refused(e, c, r),
    }
}

// The run from the field at y, over unit time.
fn substeps(o: AugmentedOperator, work: &mut [f64], k: Krylov, limit: usize) -> RunAnswer
    requires room { RoomFor o k work.old }
    requires m_bound { (k.m ≤ 128) × (limit ≤ 1000000) }
    ensures work_after { end_at o.entry.l k result work.new ≡ run (setting_in o.entry k work.old) limit (started (setting_in o.entry k work.old) (window k.y (o.entry.l.n + o.entry.l.d) work.old)) }
    ensures kept { Kept 0 o.entry.l.q +0 work.old work.new }
{
    let y = k.y;
    let end = y + (o.l.n + o.l.d);
    let beta = gram_schmidt::norm2(&work[y..end]);
    let c = Control {
        time: 0.0,
        next: phi_krylov_arnoldi::first_length(k.m, k.anorm, k.tol, beta),
        beta,
    };
    let r = KrylovPhiReport {
        matvecs: 0,
        substeps: 0,
        rejected: 0,
        est_error: 0.0,
        shortest: 0.0,
        last: 0.0,
    };
    spent(run_substeps(o, work, k, limit, c, r))
}

// The estimate relative to the first norm; the field is scaled back by the caller.
fn relative(o: RunAnswer, beta: f64) -> RunAnswer
    ensures { (l : Layout) (k : Krylov) (up : Float) (w w₁ : List Float) → window k.y (l.n + l.d) w₁ ≡ scale up (window k.y (l.n + l.d) w) → end_at l k result w₁ ≡ back up beta (end_at l k o w) }
{
    match o {
        RunAnswer::Finished(c, r) => RunAnswer::Finished(
            c,
            phi_krylov_arnoldi::relative_report(r, beta),
        ),
        RunAnswer::Refused(e, c, r) => RunAnswer::Refused(
            e,
            c,
            phi_krylov_arnoldi::relative_report(r, beta),
        ),
    }
}

// The run on the field scaled by a power of two, and scaled back.
fn scaled_run(
    o: AugmentedOperator,
    work: &mut [f64],
    k: Krylov,
    limit: usize,
    f: Scale,
) -> RunAnswer
    requires room { RoomFor o k work.old }
    requires m_bound { (k.m ≤ 128) × (limit ≤ 1000000) × (clamp_m k.m (o.l.n + o.l.d) ≡ k.m) }
    ensures work_after { end_at o.entry.l k result work.new ≡ expv_by (operator_in o.entry work.old) k.tau k.anorm k.tol k.m limit (window k.y (o.entry.l.n + o.entry.l.d) work.old) (Some f) }
    ensures kept { Kept 0 o.entry.l.q +0 work.old work.new }
{
    let y = k.y;
    let end = y + (o.l.n + o.l.d);
    vectors::scale(&mut work[y..end], f.down);
    let beta = gram_schmidt::norm2(&work[y..end]);
    let scaled = Krylov {
        tol: k.tol * beta,
        ..k
    };
    let ended = substeps(o, work, scaled, limit);
    vectors::scale(&mut work[y..end], f.up);
    relative(ended, beta)
}

// The field at y becomes e^B y, by adaptive Krylov substeps over unit time.
pub fn expv(o: AugmentedOperator, work: &mut [f64], k: Krylov, limit: usize) -> RunAnswer
    requires room { RoomFor o k work.old }
    requires m_bound { (k.m ≤ 128) × (limit ≤ 1000000) × (clamp_m k.m (o.l.n + o.l.d) ≡ k.m) }
    ensures work_after { end_at o.entry.l k result work.new ≡ expv (operator_in o.entry work.old) k.tau k.anorm k.tol k.m limit (window k.y (o.entry.l.n + o.entry.l.d) work.old) }
    ensures kept { Kept 0 o.entry.l.q +0 work.old work.new }
{
    let y = k.y;
    let end = y + (o.l.n + o.l.d);
    let Some(f) = pow2::pow2_scale(&work[y..end]) else {
        return RunAnswer::Finished(
            Control {
                time: 0.0,
                next: 0.0,
                beta: 0.0,
            },
            KrylovPhiReport {
                matvecs: 0,
                substeps: 0,
                rejected: 0,
                est_error: 0.0,
                shortest: 0.0,
                last: 0.0,
            },
        );
    };
    scaled_run(o, work, k, limit, f)
}
