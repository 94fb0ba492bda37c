// The Taylor call `phi_combination`.
#![tactic(auto)]

ghost use Rattle.std.specs.Prelude.{◌≡◌, List};
ghost use Rattle.checks.specs.First.{Check, first};
ghost use Rattle.checks.specs.Reasons.{Sound};
ghost use Rattle.general_operator.specs.Csr.{csr};
ghost use Rattle.generator_action.specs.Mass.{given};
ghost use Rattle.generator_action.specs.Generator.{forward};
ghost use Rattle.generator_action.specs.Known.{Passed};
ghost use Rattle.combination.specs.Call.{ends};
ghost use Rattle.taylor_schedule.specs.Inner.{after_checks};
ghost use Rattle.taylor_job.specs.Calls.{phi_combination};

use checks::Refusal;
use generator_action::Shape;
use taylor_job::TaylorReport;

// The combination over a generator that passed its checks.
pub fn combined(
    starts: &[u32],
    cols: &[u32],
    vals: &[f64],
    mass: &[f64],
    g: Shape,
    tau: f64,
    cap: u32,
    count: usize,
    w: &[f64],
    out: &mut [f64],
    work: &mut [f64],
) -> Result<TaylorReport, Refusal>
    requires { Passed (csr g.n starts.now cols.now vals.now) (given g.with_mass mass.now) g }
    ensures { (gs : List Check) → Sound ≡ first gs → ends result out.new work.new ≡ phi_combination (after_checks gs (csr g.n starts.now cols.now vals.now) (given g.with_mass mass.now) g) tau cap count w.now out.old work.old }
{
    let n = g.n;
    let time = combination::check_plan(tau, cap);
    vector_checks::validate_combination(n, time, count, w, out.len(), Ok(()))?;
    let d = count - 1;
    let further = &w[n..];
    let j = admission::admit_combination(g, tau, cap, d, further, work.len())?;
    start_vectors::combination_start(n, w, d, j.inv, work);
    taylor_job::run_job(starts, cols, vals, mass, further, out, work, j)
}

// The sum over k of tau^k phi_k(tau G) w_k, of `count` vectors in one slice.
pub fn phi_combination(
    n: usize,
    starts: &[u32],
    cols: &[u32],
    vals: &[f64],
    with_mass: bool,
    mass: &[f64],
    tau: f64,
    cap: u32,
    count: usize,
    w: &[f64],
    out: &mut [f64],
    work: &mut [f64],
) -> Result<TaylorReport, Refusal>
    ensures { ends result out.new work.new ≡ phi_combination (forward (csr n starts.now cols.now vals.now) (given with_mass mass.now)) tau cap count w.now out.old work.old }
{
    let matrix = generator_checks::check_generator(n, starts, cols, vals, with_mass, mass)?;
    let g = generator_action::generator_shape(n, with_mass, vals.len(), matrix.norm);
    combined(starts, cols, vals, mass, g, tau, cap, count, w, out, work)
}
