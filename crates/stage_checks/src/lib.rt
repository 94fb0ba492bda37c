// One stage of a schedule, and its checks.
#![tactic(auto)]

ghost use Rattle.std.specs.Prelude.{◌≡◌, ◌&&◌, ◌++◌, ◌+◌, ◌-◌, ◌*◌, ◌≤◌, ◌<◌, eqb, length};
ghost use Rattle.checks.specs.First.{first};
ghost use Rattle.combination.specs.Checks.{finite_checks};
ghost use Rattle.schedule_checks.specs.Schedule.{solver_of, stage, wrong_slice, time_checks_of, stage_checks};
ghost use Rattle.schedule_checks.specs.Inner.{schedule_of};
ghost use Rattle.combination.specs.Combination.{field_of};

use checks::{Checked, Reason, Refusal};
use krylov_job::KrylovPhiOptions;
use phi_solver::PhiSolver;
use schedule_checks::Stage;

// Taylor is 0, with a highest degree; any other number is Krylov, with tol, m and max_substeps.
fn solver_of(solver: u32, degree: u32, tol: f64, m: usize, limit: usize) -> PhiSolver
    ensures { result ≡ solver_of (eqb solver 0) degree tol m limit }
{
    if solver == 0 {
        return PhiSolver::Taylor(degree);
    }
    PhiSolver::Krylov(KrylovPhiOptions {
        tol,
        m,
        max_substeps: limit,
    })
}

// Stage i + 1.
pub fn stage_at(
    i: usize,
    taus: &[f64],
    counts: &[usize],
    solvers: &[u32],
    degrees: &[u32],
    tols: &[f64],
    ms: &[usize],
    limits: &[usize],
) -> Stage
    requires { (i < length taus.now) × (i < length counts.now) × (i < length solvers.now) × (i < length degrees.now) × (i < length tols.now) × (i < length ms.now) × (i < length limits.now) }
    ensures { result ≡ stage (schedule_of taus.now counts.now solvers.now degrees.now tols.now ms.now limits.now) i }
{
    let solver = solver_of(solvers[i], degrees[i], tols[i], ms[i], limits[i]);
    Stage {
        tau: taus[i],
        count: counts[i],
        solver,
    }
}

// 14, and of Taylor 33 behind it.
fn check_time_of(solver: PhiSolver, tau: f64) -> Checked
    ensures { result ≡ first (time_checks_of solver tau) }
{
    match solver {
        PhiSolver::Taylor(degree) => combination::check_plan(tau, degree),
        PhiSolver::Krylov(_) => combination::check_time(tau),
    }
}

// The slice is too short for this stage, or too long at the last.
fn wrong_slice(need: usize, last: bool, used: usize, further: usize) -> bool
    requires { (need ≤ 3000000) × (used ≤ 192000000) }
    ensures { result ≡ wrong_slice need last used further }
{
    let to = used + need;
    further < to || (last && to < further)
}

// 12 to 16 of a stage, of the lengths handed in.
pub fn check_stage(
    n: usize,
    s: Stage,
    last: bool,
    output: usize,
    field: usize,
    used: usize,
    further: usize,
) -> Checked
    requires { (n ≤ 1000000) × (used ≤ 192000000) }
    ensures { result ≡ first (stage_checks n s last output field used further) }
{
    combination::check_count(s.count)?;
    let solver = s.solver;
    check_time_of(solver, s.tau)?;
    vector_checks::check_lengths(output, n, field, n)?;
    let need = (s.count - 1) * n;
    if wrong_slice(need, last, used, further) {
        return Err(Refusal {
            reason: Reason::VectorLength,
            value: float::count(further),
        });
    }
    Ok(())
}

// 17 of w_0, which is the start field or the output's, and of the further vectors behind it.
pub fn check_field(initial: bool, start: &[f64], out: &[f64], vectors: &[f64]) -> Checked
    ensures { result ≡ first (finite_checks (field_of initial start.now out.now ++ vectors.now)) }
{
    vector_checks::check_finite(vector_checks::field_of(initial, start, out))?;
    vector_checks::check_finite(vectors)
}
