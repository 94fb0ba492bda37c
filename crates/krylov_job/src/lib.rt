// A Krylov job as its checks leave it: options, dimension, layout of the working memory, and what is refused before the first substep.
#![tactic(auto)]

ghost use Rattle.std.specs.Prelude.{◌≡◌, ◌&&◌, ◌||◌, List, ◌++◌, ◌+◌, ◌-◌, ◌*◌, ◌≤◌, ltb, length, Float};
ghost use Rattle.doubles.specs.F64.{◌⋖◌, +0, 1f};
ghost use Rattle.checks.specs.First.{Check, first, or_first};
ghost use Rattle.combination.specs.Combination.{magnitude};
ghost use Rattle.combination.specs.Checks.{time_checks, length_checks, vector_checks_by, memory_checks};
ghost use Rattle.weighted_columns.specs.Inner.{coupling_by};
ghost use Rattle.krylov_advance.specs.Run.{clamp_m};
ghost use Rattle.krylov_job.specs.KrylovCall.{bound, dimension, option_checks, bound_checks, krylov_need};
ghost use Rattle.krylov_job.specs.Memory.{layout, krylov};
ghost use Rattle.krylov_job.specs.Inner.{scaling_by, scaling_of, run_job_by, run_by, admitted};

use checks::{Checked, Reason, Refusal};
use generator_action::Shape;
use gram_schmidt::Krylov;
use krylov_advance::KrylovPhiReport;
use phi_action_helpers::{Coupling, Layout};
use pow2::Scaling;

// The accuracy wanted relative to the start's norm, the Krylov dimension, and the limit of substeps.
#[derive(Clone, Copy)]
pub struct KrylovPhiOptions {
    pub tol: f64,
    pub m: usize,
    pub max_substeps: usize,
}

// M: m clamped to 2 .. max(2, len).
pub fn clamp_m(m: usize, len: usize) -> usize
    ensures { result ≡ clamp_m m len }
{
    m.clamp(2, len.max(2))
}

fn in_unit(x: f64) -> bool
    ensures { result ≡ (+0 ⋖ x && x ⋖ 1f) }
{
    x > 0.0 && x < 1.0
}

fn too_many(m: usize, max_substeps: usize) -> bool
    ensures { result ≡ (ltb 128 m || ltb 1000000 max_substeps) }
{
    m > 128 || max_substeps > 1000000
}

// 18 to 20.
pub fn check_options(o: KrylovPhiOptions, m: usize) -> Checked
    ensures { result ≡ first (option_checks o m) }
{
    if !in_unit(o.tol) {
        return Err(Refusal {
            reason: Reason::TolRange,
            value: o.tol,
        });
    }
    if o.max_substeps == 0 {
        return Err(Refusal {
            reason: Reason::NoSubsteps,
            value: 0.0,
        });
    }
    if too_many(m, o.max_substeps) {
        return Err(Refusal {
            reason: Reason::OptionTooLarge,
            value: float::not_a_number(),
        });
    }
    Ok(())
}

// 12 to 20; `others` is the answer of what stands between 16 and 17.
fn check_job(
    n: usize,
    tau: f64,
    count: usize,
    w: &[f64],
    o: KrylovPhiOptions,
    output: usize,
    others: Checked,
) -> Checked
    requires { n ≤ 1000000 }
    ensures { (os : List Check) → others ≡ first os → result ≡ first (vector_checks_by (time_checks tau) (length_checks output n (length w.now) (count * n) ++ os) count w.now ++ option_checks o (dimension n (count - 1) o.m)) }
{
    let time = combination::check_time(tau);
    vector_checks::validate_combination(n, time, count, w, output, others)?;
    let m = clamp_m(o.m, n + (count - 1));
    check_options(o, m)
}

// tau * norm + 2
fn bound(tau: f64, norm: f64) -> f64
    ensures { result ≡ bound tau norm }
{
    tau * norm + 2.0
}

// 24.
fn check_bound(anorm: f64) -> Checked
    ensures { result ≡ first (bound_checks anorm) }
{
    if !float::is_finite(anorm) {
        return Err(Refusal {
            reason: Reason::ArgumentNotFinite,
            value: anorm,
        });
    }
    Ok(())
}

// What a run needs of the lent memory.
pub fn krylov_need(n: usize, d: usize, m: usize, stored: usize) -> usize
    requires { (n ≤ 1000000) × (d ≤ 3) × (m ≤ 128) × (stored ≤ 16777216) }
    ensures { result ≡ krylov_need n d m stored }
{
    n + (m + 3) * (n + d) + (m + 2) * (m + 2) + stored
}

pub fn layout(n: usize, d: usize, m: usize, mass: bool) -> Layout
    requires { (n ≤ 1000000) × (d ≤ 3) × (m ≤ 128) }
    ensures { result ≡ layout n d m mass }
{
    let av = (m + 3) * (n + d) + (m + 2) * (m + 2);
    Layout {
        n,
        d,
        w: (m + 1) * (n + d),
        av,
        q: av + n,
        mass,
    }
}

pub fn krylov(n: usize, d: usize, m: usize, tau: f64, anorm: f64, tol: f64) -> Krylov
    requires { (n ≤ 1000000) × (d ≤ 3) × (m ≤ 128) }
    ensures { result ≡ krylov n d m tau anorm tol }
{
    let h = (m + 2) * (n + d);
    Krylov {
        m,
        h,
        y: h + (m + 2) * (m + 2),
        tau,
        anorm,
        tol,
    }
}

// A run as its checks leave it: what they found, with the numbers of its generator.
#[derive(Clone, Copy)]
pub struct RunJob {
    pub g: Shape,
    pub d: usize,
    pub need: usize,
    pub eta: Scaling,
    pub b: Coupling,
    pub k: Krylov,
    pub limit: usize,
}

// What scales the gains: the eta that a run began with, or the job's own, of the sum of all shares; 1 / eta is of use to a job's own alone.
fn scaling_by(began: Option<f64>, sum: f64) -> Scaling
    ensures { result ≡ scaling_by began sum }
{
    match began {
        None => pow2::eta_scaling(sum),
        Some(eta) => Scaling { eta, inv: 1.0 },
    }
}

// 24 and 26.
fn admit_weighed(
    g: Shape,
    tau: f64,
    d: usize,
    eta: Scaling,
    b: Coupling,
    o: KrylovPhiOptions,
    m: usize,
    memory: usize,
) -> Result<RunJob, Refusal>
    requires { (g.n ≤ 1000000) × (d ≤ 3) × (m ≤ 128) × (g.stored ≤ 16777216) }
    ensures { (f : List Float) → b ≡ coupling_by g.n f tau d eta.eta → result ≡ or_first (bound_checks (bound tau g.norm) ++ memory_checks memory (krylov_need g.n d m g.stored)) (run_job_by g tau d f eta o m) }
{
    let anorm = bound(tau, g.norm);
    let need = krylov_need(g.n, d, m, g.stored);
    check_bound(anorm)?;
    combination::check_memory(memory, need)?;
    Ok(RunJob {
        g,
        d,
        need,
        eta,
        b,
        k: krylov(g.n, d, m, tau, anorm, o.tol),
        limit: o.max_substeps,
    })
}

// 21, 22, 24 and 26.
pub fn admit_run(
    g: Shape,
    tau: f64,
    d: usize,
    further: &[f64],
    began: Option<f64>,
    o: KrylovPhiOptions,
    m: usize,
    memory: usize,
) -> Result<RunJob, Refusal>
    requires { (d * g.n ≤ length further.now) × (g.n ≤ 1000000) × (d ≤ 3) × (m ≤ 128) × (g.stored ≤ 16777216) }
    ensures { result ≡ run_by g tau d further.now (scaling_by began (magnitude g.n further.now tau d)) o m memory }
{
    let p = weighted_columns::powers_of(g.n, further, tau, d);
    let eta = scaling_by(began, p.sum);
    let weights = weighted_columns::weigh_by(g.n, d, p, eta)?;
    admit_weighed(g, tau, d, eta, weights.b, o, m, memory)
}

// 12 to 22, 24 and 26; `others` is the answer of what stands between 16 and 17.
pub fn admit_job(
    g: Shape,
    tau: f64,
    count: usize,
    w: &[f64],
    began: Option<f64>,
    o: KrylovPhiOptions,
    output: usize,
    others: Checked,
    memory: usize,
) -> Result<RunJob, Refusal>
    requires { (g.n ≤ 1000000) × (g.stored ≤ 16777216) }
    ensures { (os : List Check) → others ≡ first os → result ≡ admitted g tau count w.now (scaling_of g tau count w.now began) o (length_checks output g.n (length w.now) (count * g.n) ++ os) memory }
{
    let n = g.n;
    check_job(n, tau, count, w, o, output, others)?;
    let d = count - 1;
    let m = clamp_m(o.m, n + d);
    admit_run(g, tau, d, &w[n..], began, o, m, memory)
}
