// A Krylov run that is paused after its start and after each substep: its state, and what ends it.
#![tactic(auto)]

ghost use Rattle.std.specs.Prelude.{◌≡◌, false, not, ◌||◌, List, ◌+◌, ◌≤◌, eqb, length, Float};
ghost use Rattle.lists.specs.Window.{window};
ghost use Rattle.vectors.specs.Vectors.{scale};
ghost use Rattle.checks.specs.First.{first};
ghost use Rattle.paused_run.specs.Paused.{tol_in, options_in, over, moved, stopped, verdict};
ghost use Rattle.paused_run.specs.Inner.{other_checks_by, fresh_of, state, turned};

use checks::{Checked, Reason, Refusal};
use krylov_advance::{Control, KrylovPhiReport, Progress};
use krylov_job::{KrylovPhiOptions, RunJob};
use pow2::Scale;

// A run between two calls; its scaled field lies in a lent slice of n + count - 1 doubles.
#[derive(Clone, Copy)]
pub struct PausedRun {
    pub time: f64,
    pub next: f64,
    pub report: KrylovPhiReport,
    pub eta: f64,
    pub factors: Scale,
    pub norm: f64,
    pub tol: f64,
    pub m: usize,
    pub limit: usize,
    pub n: usize,
    pub count: usize,
    pub ended: bool,
}

// Why a step is refused, and the run that it leaves.
#[derive(Clone, Copy)]
pub struct StepRefusal {
    pub refusal: Refusal,
    pub run: PausedRun,
}

// The first values of the field, scaled back.
pub fn hand_out(out: &mut [f64], field: &[f64], up: f64)
    requires { length out.old ≤ length field.now }
    ensures { out.new ≡ window 0 (length out.old) (scale up field.now) }
{
    let n = out.len();
    vectors::copy_from(out, 0, field, 0, n);
    vectors::scale(out, up);
}

// A run at time 0.
pub fn fresh(
    o: KrylovPhiOptions,
    j: RunJob,
    f: Scale,
    norm: f64,
    next: f64,
    ended: bool,
) -> PausedRun
    requires { j.d ≤ 3 }
    ensures { result ≡ fresh_of o j f norm next ended }
{
    PausedRun {
        time: 0.0,
        next,
        report: KrylovPhiReport {
            matvecs: 0,
            substeps: 0,
            rejected: 0,
            est_error: 0.0,
            shortest: 0.0,
            last: 0.0,
        },
        eta: j.eta.eta,
        factors: f,
        norm,
        tol: o.tol,
        m: o.m,
        limit: o.max_substeps,
        n: j.g.n,
        count: j.d + 1,
        ended,
    }
}

// The tolerance in force: the one that a step brings, or the run's own.
pub fn tol_in(tolerance: Option<f64>, run: PausedRun) -> f64
    ensures { result ≡ tol_in tolerance run }
{
    tolerance.unwrap_or(run.tol)
}

// The run's options with it.
pub fn options_in(run: PausedRun, tol: f64) -> KrylovPhiOptions
    ensures { result ≡ options_in run tol }
{
    KrylovPhiOptions {
        tol,
        m: run.m,
        max_substeps: run.limit,
    }
}

// 31: ended, or with counts that no unfinished run has.
#[tactic(auto, unfolding(crate::specs::Paused::over))]
pub fn over(run: PausedRun) -> bool
    ensures { result ≡ over run }
{
    run.ended
        || run.limit <= run.report.substeps
        || run.report.matvecs > 129000000
        || run.report.rejected > 10000000
}

fn is_other(run: PausedRun, n: usize, count: usize) -> bool
    ensures { result ≡ (not (eqb n run.n) || not (eqb count run.count)) }
{
    n != run.n || count != run.count
}

// 16: another n or count than the start's.
pub fn check_other(run: PausedRun, n: usize, count: usize, long: usize) -> Checked
    ensures { result ≡ first (other_checks_by run n count long) }
{
    if is_other(run, n, count) {
        return Err(Refusal {
            reason: Reason::VectorLength,
            value: float::count(long),
        });
    }
    Ok(())
}

// The run after an accepted substep.
fn moved(run: PausedRun, tol: f64, c: Control, report: KrylovPhiReport, ended: bool) -> PausedRun
    ensures { (before : KrylovPhiReport) (y : List Float) → result ≡ moved run tol (state c before y) report ended }
{
    PausedRun {
        time: c.time,
        next: c.next,
        report,
        tol,
        ended,
        ..run
    }
}

// The last accepted state, marked as ended.
fn stopped(run: PausedRun) -> PausedRun
    ensures { result ≡ stopped run }
{
    PausedRun { ended: true, ..run }
}

// The answer to a substep: refused with the limit's last one, unless it ends the run with a result.
pub fn verdict(run: PausedRun, tol: f64, o: Progress) -> Result<PausedRun, StepRefusal>
    ensures { (y : List Float) → result ≡ verdict run tol (turned o y) }
{
    match o {
        Progress::On(c, r) => {
            if r.substeps < run.limit {
                return Ok(moved(run, tol, c, r, false));
            }
            Err(StepRefusal {
                refusal: Refusal {
                    reason: Reason::SubstepLimit,
                    value: r.est_error,
                },
                run: moved(run, tol, c, r, true),
            })
        }
        Progress::Finished(c, r) => {
            let report = phi_krylov_arnoldi::relative_report(r, run.norm);
            Ok(moved(run, tol, c, report, true))
        }
        Progress::Refused(refusal, _, _) => Err(StepRefusal {
            refusal,
            run: stopped(run),
        }),
    }
}
