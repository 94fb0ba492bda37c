// The schedule of a soak in stages, and the check of its lists.
#![tactic(auto)]

ghost use Rattle.std.specs.Prelude.{◌≡◌, not, ◌&&◌, ◌||◌, ◌-◌, eqb, ltb};
ghost use Rattle.checks.specs.First.{first};
ghost use Rattle.schedule_checks.specs.Schedule.{stage, schedule_checks};
ghost use Rattle.schedule_checks.specs.Inner.{schedule_of};

use checks::{Checked, Reason, Refusal};
use phi_solver::PhiSolver;

// Products with the generator, accepted substeps and rejected lengths of all stages.
#[derive(Clone, Copy)]
pub struct StagedReport {
    pub applications: u64,
    pub substeps: u64,
    pub rejected: u64,
}

// A refusal with the stage that met it, from 1 (0: before any stage).
#[derive(Clone, Copy)]
pub struct StageRefusal {
    pub refusal: Refusal,
    pub stage: u32,
}

// A stage: its tau, its number of vectors, w_0 among them, and its solver.
#[derive(Clone, Copy)]
pub struct Stage {
    pub tau: f64,
    pub count: usize,
    pub solver: PhiSolver,
}

// After some stages: how many numbers of the further vectors' slice are used, and the counts.
#[derive(Clone, Copy)]
pub struct SoFar {
    pub used: usize,
    pub report: StagedReport,
}

// Lists that do not tell of one number k of stages.
fn uneven(
    k: usize,
    counts: usize,
    solvers: usize,
    degrees: usize,
    tols: usize,
    ms: usize,
    limits: usize,
) -> bool
    ensures { result ≡ not (eqb counts k && (eqb solvers k && (eqb degrees k && (eqb tols k && (eqb ms k && eqb limits k))))) }
{
    counts != k || solvers != k || degrees != k || tols != k || ms != k || limits != k
}

// Not 1 to 64 stages.
fn wrong_number(k: usize, odd: bool) -> bool
    ensures { result ≡ (eqb k 0 || (ltb 64 k || odd)) }
{
    k == 0 || k > 64 || odd
}

// 37.
pub fn check_schedule(
    taus: &[f64],
    counts: &[usize],
    solvers: &[u32],
    degrees: &[u32],
    tols: &[f64],
    ms: &[usize],
    limits: &[usize],
) -> Checked
    ensures { result ≡ first (schedule_checks (schedule_of taus.now counts.now solvers.now degrees.now tols.now ms.now limits.now)) }
{
    let k = taus.len();
    let odd = uneven(
        k,
        counts.len(),
        solvers.len(),
        degrees.len(),
        tols.len(),
        ms.len(),
        limits.len(),
    );
    if wrong_number(k, odd) {
        return Err(Refusal {
            reason: Reason::StageCount,
            value: float::not_a_number(),
        });
    }
    Ok(())
}
