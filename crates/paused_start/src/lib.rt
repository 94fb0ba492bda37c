// The start of a paused run: every check of a Krylov call, and no substep.
#![tactic(auto)]

ghost use Rattle.std.specs.Prelude.{◌≡◌, false, List, ℕ, ◌+◌, ◌≤◌, length, Float};
ghost use Rattle.lists.specs.Window.{window};
ghost use Rattle.vectors.specs.Vectors.{scale};
ghost use Rattle.pow2.specs.Pow2.{pow2_scale};
ghost use Rattle.checks.specs.First.{Check, first};
ghost use Rattle.checks.specs.Reasons.{Sound};
ghost use Rattle.general_operator.specs.Csr.{csr};
ghost use Rattle.generator_action.specs.Mass.{given};
ghost use Rattle.generator_action.specs.Generator.{forward};
ghost use Rattle.generator_action.specs.Known.{Passed};
ghost use Rattle.combination.specs.Combination.{combination_start};
ghost use Rattle.combination.specs.Call.{cleared};
ghost use Rattle.paused_run.specs.Paused.{leaves, start, over};
ghost use Rattle.paused_run.specs.Inner.{job_over, first_of, begun_of};

use checks::{Reason, Refusal};
use generator_action::Shape;
use krylov_job::{KrylovPhiOptions, RunJob};
use paused_run::PausedRun;
use pow2::Scale;

// A run from a field that is not all zeros, which is scaled by a power of two.
fn first_run(
    o: KrylovPhiOptions,
    j: RunJob,
    f: Scale,
    out: &mut [f64],
    field: &mut [f64],
) -> PausedRun
    requires { (j.d ≤ 3) × (j.k.m ≤ 128) × (length out.old ≤ length field.old) }
    ensures value { result ≡ first_of o j f (scale f.down field.old) }
    ensures field_after { field.new ≡ scale f.down field.old }
    ensures out_after { out.new ≡ window 0 (length out.old) (scale f.up (scale f.down field.old)) }
{
    vectors::scale(field, f.down);
    let norm = gram_schmidt::norm2(field);
    let next = phi_krylov_arnoldi::first_length(j.k.m, j.k.anorm, o.tol * norm, norm);
    paused_run::hand_out(out, field, f.up);
    paused_run::fresh(o, j, f, norm, next, false)
}

// A job that passed: its field at time 0, and no substep.
fn begin(
    o: KrylovPhiOptions,
    j: RunJob,
    w: &[f64],
    out: &mut [f64],
    work: &mut [f64],
    field: &mut [f64],
) -> Result<PausedRun, Refusal>
    requires d_bound { (j.d ≤ 3) × (j.k.m ≤ 128) × (j.need ≤ length work.old) × (j.g.n ≤ length w.now) }
    requires out_len { (length out.old ≡ j.g.n) × (length field.old ≡ j.g.n + j.d) }
    ensures { leaves result out.new work.new field.new ≡ begun_of o j (combination_start j.g.n w.now j.d j.eta.inv) (cleared j.need work.old) (pow2_scale (combination_start j.g.n w.now j.d j.eta.inv)) }
{
    let n = j.g.n;
    start_vectors::combination_start(n, w, j.d, j.eta.inv, field);
    vectors::clear_in(work, 0, j.need);
    let Some(f) = pow2::pow2_scale(field) else {
        vectors::copy_from(out, 0, field, 0, n);
        let one = Scale { down: 1.0, up: 1.0 };
        return Ok(paused_run::fresh(o, j, one, 0.0, 0.0, true));
    };
    Ok(first_run(o, j, f, out, field))
}

// A start over a generator that passed its checks.
pub fn started(
    g: Shape,
    tau: f64,
    count: usize,
    w: &[f64],
    o: KrylovPhiOptions,
    out: &mut [f64],
    work: &mut [f64],
    field: &mut [f64],
) -> Result<PausedRun, Refusal>
    requires { (g.n ≤ 1000000) × (g.stored ≤ 16777216) }
    ensures { (gs : List Check) (starts cols : List ℕ) (vals mass : List Float) → Sound ≡ first gs → Passed (csr g.n starts cols vals) (given g.with_mass mass) g → leaves result out.new work.new field.new ≡ start o (job_over gs g starts cols vals mass tau count w.now) out.old work.old field.old }
{
    let j = krylov_job::admit_job(g, tau, count, w, None, o, out.len(), Ok(()), work.len())?;
    if field.len() != j.g.n + j.d {
        return Err(Refusal {
            reason: Reason::WorkLength,
            value: float::not_a_number(),
        });
    }
    begin(o, j, w, out, work, field)
}

// All checks of a Krylov call, and no substep.
pub fn start(
    n: usize,
    starts: &[u32],
    cols: &[u32],
    vals: &[f64],
    with_mass: bool,
    mass: &[f64],
    tau: f64,
    count: usize,
    w: &[f64],
    o: KrylovPhiOptions,
    out: &mut [f64],
    work: &mut [f64],
    field: &mut [f64],
) -> Result<PausedRun, Refusal>
    ensures { leaves result out.new work.new field.new ≡ start o (record { g = forward (csr n starts.now cols.now vals.now) (given with_mass mass.now); tau = tau; count = count; w = w.now }) out.old work.old field.old }
{
    let matrix = generator_checks::check_generator(n, starts, cols, vals, with_mass, mass)?;
    let g = generator_action::generator_shape(n, with_mass, vals.len(), matrix.norm);
    started(g, tau, count, w, o, out, work, field)
}
