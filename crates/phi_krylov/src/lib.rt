// Krylov: the combination by adaptive substeps.
#![tactic(auto)]

ghost use Rattle.std.specs.Prelude.{◌≡◌, List};
ghost use Rattle.checks.specs.First.{Check, first};
ghost use Rattle.checks.specs.Reasons.{Sound};
ghost use Rattle.general_operator.specs.Csr.{csr};
ghost use Rattle.generator_action.specs.Mass.{given};
ghost use Rattle.generator_action.specs.Generator.{forward};
ghost use Rattle.generator_action.specs.Known.{Passed};
ghost use Rattle.combination.specs.Call.{ends};
ghost use Rattle.taylor_schedule.specs.Inner.{after_checks};
ghost use Rattle.krylov_job.specs.KrylovCall.{phi_combination_krylov};

use checks::Refusal;
use generator_action::Shape;
use krylov_advance::KrylovPhiReport;
use krylov_job::KrylovPhiOptions;

// The combination over a generator that passed its checks.
pub fn combined(
    starts: &[u32],
    cols: &[u32],
    vals: &[f64],
    mass: &[f64],
    g: Shape,
    tau: f64,
    count: usize,
    w: &[f64],
    o: KrylovPhiOptions,
    out: &mut [f64],
    work: &mut [f64],
) -> Result<KrylovPhiReport, Refusal>
    requires { Passed (csr g.n starts.now cols.now vals.now) (given g.with_mass mass.now) g }
    ensures { (gs : List Check) → Sound ≡ first gs → ends result out.new work.new ≡ phi_combination_krylov (after_checks gs (csr g.n starts.now cols.now vals.now) (given g.with_mass mass.now) g) tau count w.now o out.old work.old }
{
    let n = g.n;
    let j = krylov_job::admit_job(g, tau, count, w, None, o, out.len(), Ok(()), work.len())?;
    krylov_run::start_in(n, w, j.d, j.eta.inv, work, j.k.y);
    krylov_run::run_job(starts, cols, vals, mass, &w[n..], out, work, j)
}

// The sum over k of tau^k phi_k(tau G) w_k, of `count` vectors in one slice, by adaptive substeps.
pub fn phi_combination_krylov(
    n: usize,
    starts: &[u32],
    cols: &[u32],
    vals: &[f64],
    with_mass: bool,
    mass: &[f64],
    tau: f64,
    count: usize,
    w: &[f64],
    o: KrylovPhiOptions,
    out: &mut [f64],
    work: &mut [f64],
) -> Result<KrylovPhiReport, Refusal>
    ensures { ends result out.new work.new ≡ phi_combination_krylov (forward (csr n starts.now cols.now vals.now) (given with_mass mass.now)) tau count w.now o out.old work.old }
{
    let matrix = generator_checks::check_generator(n, starts, cols, vals, with_mass, mass)?;
    let g = generator_action::generator_shape(n, with_mass, vals.len(), matrix.norm);
    combined(starts, cols, vals, mass, g, tau, count, w, o, out, work)
}
