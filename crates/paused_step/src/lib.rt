// A step of a paused run: 31 first, the checks of a Krylov call, one substep.
#![tactic(auto)]

ghost use Rattle.std.specs.Prelude.{◌≡◌, false, List, ◌+◌};
ghost use Rattle.checks.specs.First.{Check, first};
ghost use Rattle.checks.specs.Reasons.{Sound};
ghost use Rattle.general_operator.specs.Csr.{csr};
ghost use Rattle.generator_action.specs.Mass.{given};
ghost use Rattle.generator_action.specs.Generator.{forward};
ghost use Rattle.generator_action.specs.Known.{Passed};
ghost use Rattle.krylov_advance.specs.Run.{substep};
ghost use Rattle.paused_run.specs.Paused.{leaves, over, step};
ghost use Rattle.paused_run.specs.Inner.{job_over};

use checks::{Reason, Refusal};
use generator_action::Shape;
use gram_schmidt::Krylov;
use paused_run::{PausedRun, StepRefusal};

// A step over a generator that passed its checks, of a run that 31 does not refuse.
pub fn stepped(
    run: PausedRun,
    tolerance: Option<f64>,
    starts: &[u32],
    cols: &[u32],
    vals: &[f64],
    mass: &[f64],
    g: Shape,
    tau: f64,
    count: usize,
    w: &[f64],
    out: &mut [f64],
    work: &mut [f64],
    field: &mut [f64],
) -> Result<PausedRun, StepRefusal>
    requires passed { Passed (csr g.n starts.now cols.now vals.now) (given g.with_mass mass.now) g }
    requires run_value { over run ≡ false }
    ensures { (gs : List Check) → Sound ≡ first gs → leaves result out.new work.new field.new ≡ step run field.old (record { tolerance = tolerance; job = job_over gs g starts.now cols.now vals.now mass.now tau count w.now; output = out.old; memory = work.old }) }
{
    let n = g.n;
    let tol = paused_run::tol_in(tolerance, run);
    let o = paused_run::options_in(run, tol);
    let others = paused_run::check_other(run, n, count, w.len());
    let began = Some(run.eta);
    let j = krylov_job::admit_job(
        g,
        tau,
        count,
        w,
        began,
        o,
        out.len(),
        others,
        work.len(),
    ).map_err(|refusal| StepRefusal { refusal, run })?;
    if field.len() != n + j.d {
        return Err(StepRefusal {
            refusal: Refusal {
                reason: Reason::WorkLength,
                value: float::not_a_number(),
            },
            run,
        });
    }
    paused_advance::advance(
        run,
        tol,
        starts,
        cols,
        vals,
        mass,
        &w[n..],
        out,
        work,
        field,
        j,
    )
}

// One substep of a run, after all checks of a Krylov call.
pub fn step(
    run: PausedRun,
    tolerance: Option<f64>,
    n: usize,
    starts: &[u32],
    cols: &[u32],
    vals: &[f64],
    with_mass: bool,
    mass: &[f64],
    tau: f64,
    count: usize,
    w: &[f64],
    out: &mut [f64],
    work: &mut [f64],
    field: &mut [f64],
) -> Result<PausedRun, StepRefusal>
    ensures { leaves result out.new work.new field.new ≡ step run field.old (record { tolerance = tolerance; job = record { g = forward (csr n starts.now cols.now vals.now) (given with_mass mass.now); tau = tau; count = count; w = w.now }; output = out.old; memory = work.old }) }
{
    if paused_run::over(run) {
        return Err(StepRefusal {
            refusal: Refusal {
                reason: Reason::RunEnded,
                value: float::not_a_number(),
            },
            run,
        });
    }
    let matrix = generator_checks::check_generator(n, starts, cols, vals, with_mass, mass).map_err(
        |refusal| StepRefusal { refusal, run },
    )?;
    let g = generator_action::generator_shape(n, with_mass, vals.len(), matrix.norm);
    stepped(
        run, tolerance, starts, cols, vals, mass, g, tau, count, w, out, work, field,
    )
}
