// One substep of a Krylov run, and the first length tried.
#![tactic(auto)]

ghost use Rattle.std.specs.Prelude.{◌≡◌, ◌+◌, ◌*◌, ◌≤◌, length};
ghost use Rattle.lists.specs.Walk.{on};
ghost use Rattle.lists.specs.Frame.{Kept};
ghost use Rattle.doubles.specs.F64.{+0};
ghost use Rattle.gram_schmidt.specs.Memory.{setting_in, RoomFor};
ghost use Rattle.krylov_advance.specs.Run.{first_length, substep, relative_report};
ghost use Rattle.krylov_advance.specs.declared.KrylovPhiReport.{KrylovPhiReport};
ghost use Rattle.krylov_advance.specs.Memory.{products, state_at, progress_at};

use checks::{Reason, Refusal};
use gram_schmidt::{Broken, Full, Krylov};
use krylov_advance::{Control, KrylovPhiReport, Progress};
use phi_action_helpers::AugmentedOperator;
use trial_steps::Outcome;

// e and 2 pi, of Stirling's formula; the least normal double, below which no norm is divided by; and 2^-52.
const E: f64 = 2.718281828459045;

const TWO_PI: f64 = 6.283185307179586;

const MIN_POSITIVE: f64 = 2.2250738585072014e-308;

// The first length proposed.
pub fn first_length(m: usize, anorm: f64, tol: f64, beta: f64) -> f64
    requires { m ≤ 128 }
    ensures { result ≡ first_length m anorm tol beta }
{
    let m1 = float::count(m) + 1.0;
    let fact = power::power(m1 / E, (m + 1) as u64) * sqrt::sqrt(TWO_PI * m1);
    let ratio = fact * tol / (4.0 * beta * float::max(anorm, 1.0));
    round2::round2(1.0 / float::max(anorm, MIN_POSITIVE) * power::root(ratio, m as u64))
}

// The products with the generator that a basis took.
fn products(basis: Result<Full, Broken>) -> usize
    ensures { result ≡ products basis }
{
    match basis {
        Ok(b) => b.applied,
        Err(e) => e.applied,
    }
}

// One substep: the basis once, then lengths tried on it; refused after eleven rejections, or without an inner plan.
pub fn substep(
    o: AugmentedOperator,
    work: &mut [f64],
    k: Krylov,
    c: Control,
    r: KrylovPhiReport,
) -> Progress
    requires room { RoomFor o k work.old }
    requires m_bound { (k.m ≤ 128) × (r.matvecs ≤ 1000000000) × (r.substeps ≤ 1000000) × (r.rejected ≤ 1000000000) }
    ensures work_after { progress_at o.entry.l k result work.new ≡ substep (setting_in o.entry k work.old) (state_at o.entry.l k c r work.old) }
    ensures kept { Kept 0 o.entry.l.q +0 work.old work.new }
{
    let basis = arnoldi::arnoldi(o, work, k, c.beta);
    let from = k.h;
    let to = from + (k.m + 2) * (k.m + 2);
    let remaining = 1.0 - c.time;
    let trial = trial_steps::trial_steps(&work[from..to], k, c.beta, c.next, remaining, basis);
    let outcome = trial.outcome;
    match outcome {
        Outcome::Next(_, _) => Progress::Refused(
            Refusal {
                reason: Reason::LengthsRejected,
                value: k.tol,
            },
            c,
            r,
        ),
        Outcome::NoPlan(arg) => Progress::Refused(
            Refusal {
                reason: Reason::NoInnerPlan,
                value: arg,
            },
            c,
            r,
        ),
        Outcome::Accepted(s) => krylov_advance::advance(
            work,
            o.l,
            k,
            c,
            r,
            products(basis),
            s,
            trial,
        ),
    }
}

pub fn relative_report(r: KrylovPhiReport, beta: f64) -> KrylovPhiReport
    ensures { result ≡ relative_report r beta }
{
    KrylovPhiReport {
        est_error: r.est_error / beta,
        ..r
    }
}
