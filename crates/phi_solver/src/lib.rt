// A combination by either solver.
#![tactic(auto)]

ghost use Rattle.std.specs.Prelude.{◌≡◌};
ghost use Rattle.general_operator.specs.Csr.{csr};
ghost use Rattle.generator_action.specs.Mass.{given};
ghost use Rattle.generator_action.specs.Generator.{forward};
ghost use Rattle.combination.specs.Call.{ends};
ghost use Rattle.phi_solver.specs.Combine.{of_taylor, of_krylov, combine};

use checks::Refusal;
use gram_schmidt::Krylov;
use krylov_advance::KrylovPhiReport;
use krylov_job::KrylovPhiOptions;
use taylor_job::TaylorReport;

// Which evaluator a combination uses; Taylor's plan has a highest degree.
#[derive(Clone, Copy)]
pub enum PhiSolver {
    Taylor(u32),
    Krylov(KrylovPhiOptions),
}

// The report of the evaluator used.
#[derive(Clone, Copy)]
pub enum PhiReport {
    Taylor(TaylorReport),
    Krylov(KrylovPhiReport),
}

pub fn of_taylor(answer: Result<TaylorReport, Refusal>) -> Result<PhiReport, Refusal>
    ensures { result ≡ of_taylor answer }
{
    Ok(PhiReport::Taylor(answer?))
}

pub fn of_krylov(answer: Result<KrylovPhiReport, Refusal>) -> Result<PhiReport, Refusal>
    ensures { result ≡ of_krylov answer }
{
    Ok(PhiReport::Krylov(answer?))
}

// One combination by the chosen evaluator.
pub fn combine(
    solver: PhiSolver,
    n: usize,
    starts: &[u32],
    cols: &[u32],
    vals: &[f64],
    with_mass: bool,
    mass: &[f64],
    tau: f64,
    count: usize,
    w: &[f64],
    out: &mut [f64],
    work: &mut [f64],
) -> Result<PhiReport, Refusal>
    ensures { ends result out.new work.new ≡ combine solver (forward (csr n starts.now cols.now vals.now) (given with_mass mass.now)) tau count w.now out.old work.old }
{
    match solver {
        PhiSolver::Taylor(cap) => of_taylor(phi_combination::phi_combination(
            n, starts, cols, vals, with_mass, mass, tau, cap, count, w, out, work,
        )),
        PhiSolver::Krylov(options) => of_krylov(phi_krylov::phi_combination_krylov(
            n, starts, cols, vals, with_mass, mass, tau, count, w, options, out, work,
        )),
    }
}
