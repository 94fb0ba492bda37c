// The Taylor call `phi_action`.
#![tactic(auto)]

ghost use Rattle.std.specs.Prelude.{◌≡◌, List};
ghost use Rattle.checks.specs.First.{Check, first};
ghost use Rattle.checks.specs.Reasons.{Sound};
ghost use Rattle.general_operator.specs.Csr.{csr};
ghost use Rattle.generator_action.specs.Mass.{given};
ghost use Rattle.generator_action.specs.Generator.{forward};
ghost use Rattle.generator_action.specs.Known.{Passed};
ghost use Rattle.combination.specs.Call.{ends};
ghost use Rattle.taylor_schedule.specs.Inner.{after_checks};
ghost use Rattle.taylor_job.specs.Calls.{phi_action};

use checks::Refusal;
use generator_action::Shape;
use taylor_job::TaylorReport;

// The action over a generator that passed its checks.
pub fn acted(
    starts: &[u32],
    cols: &[u32],
    vals: &[f64],
    mass: &[f64],
    g: Shape,
    tau: f64,
    cap: u32,
    k: usize,
    v: &[f64],
    out: &mut [f64],
    work: &mut [f64],
) -> Result<TaylorReport, Refusal>
    requires { Passed (csr g.n starts.now cols.now vals.now) (given g.with_mass mass.now) g }
    ensures { (gs : List Check) → Sound ≡ first gs → ends result out.new work.new ≡ phi_action (after_checks gs (csr g.n starts.now cols.now vals.now) (given g.with_mass mass.now) g) tau cap k v.now out.old work.old }
{
    let j = admission::admit_action(g, tau, cap, k, v, out.len(), g.n, work.len())?;
    start_vectors::init_aug_vector(g.n, v, k, j.inv, work);
    taylor_job::run_job(starts, cols, vals, mass, v, out, work, j)
}

// phi_k(tau G) v.
pub fn phi_action(
    n: usize,
    starts: &[u32],
    cols: &[u32],
    vals: &[f64],
    with_mass: bool,
    mass: &[f64],
    tau: f64,
    cap: u32,
    k: usize,
    v: &[f64],
    out: &mut [f64],
    work: &mut [f64],
) -> Result<TaylorReport, Refusal>
    ensures { ends result out.new work.new ≡ phi_action (forward (csr n starts.now cols.now vals.now) (given with_mass mass.now)) tau cap k v.now out.old work.old }
{
    let matrix = generator_checks::check_generator(n, starts, cols, vals, with_mass, mass)?;
    let g = generator_action::generator_shape(n, with_mass, vals.len(), matrix.norm);
    acted(starts, cols, vals, mass, g, tau, cap, k, v, out, work)
}
