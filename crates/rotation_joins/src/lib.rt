// A new run on a unit.
#![tactic(auto)]

ghost use Rattle.std.specs.Prelude.{◌≡◌, List, ℕ, ◌≤◌, length, is_some, Float, if◌then◌else◌};
ghost use Rattle.pow2.specs.Pow2.{eta_scaling, pow2_scale};
ghost use Rattle.checks.specs.First.{Check, first};
ghost use Rattle.checks.specs.Reasons.{Sound};
ghost use Rattle.general_operator.specs.Csr.{csr};
ghost use Rattle.generator_action.specs.Mass.{given};
ghost use Rattle.generator_action.specs.Generator.{forward};
ghost use Rattle.generator_action.specs.Known.{Passed};
ghost use Rattle.combination.specs.Combination.{combination_start};
ghost use Rattle.paused_run.specs.Paused.{leaves, start};
ghost use Rattle.paused_run.specs.Inner.{job_over};
ghost use Rattle.rotation.specs.Unit.{room, unit_call, join};
ghost use Rattle.rotation_joins.specs.Inner.{full_answer, admitted_of};

use checks::{Checked, Reason, Refusal};
use generator_action::Shape;
use krylov_job::KrylovPhiOptions;
use paused_run::PausedRun;
use rotation::Rotation;

// The unit after a join, the place taken (16: none) and the start's answer.
#[derive(Clone, Copy)]
pub struct Joined {
    pub unit: Rotation,
    pub place: usize,
    pub answer: Result<PausedRun, Refusal>,
}

// Whether the n + d values of a start are not all zeros: 1 / eta stands at the end of a chain.
fn goes_on(n: usize, w: &[f64], d: usize) -> bool
    requires { d ≡ 0 → length w.now ≡ n }
    ensures { (sum : Float) → result ≡ is_some (pow2_scale (combination_start n w.now d (eta_scaling sum).inv)) }
{
    d != 0 || pow2::pow2_scale(w).is_some()
}

// How a unit without room refuses a job over a generator that passed its checks, nothing being written.
fn refused_job(
    g: Shape,
    tau: f64,
    count: usize,
    w: &[f64],
    o: KrylovPhiOptions,
    out: usize,
    work: usize,
    field: usize,
) -> Checked
    requires { (g.n ≤ 1000000) × (g.stored ≤ 16777216) }
    ensures { (gs : List Check) (starts cols : List ℕ) (vals mass output memory lent : List Float) → Sound ≡ first gs → Passed (csr g.n starts cols vals) (given g.with_mass mass) g → length output ≡ out → length memory ≡ work → length lent ≡ field → result ≡ full_answer (start o (job_over gs g starts cols vals mass tau count w.now) output memory lent).answer }
{
    let j = krylov_job::admit_job(g, tau, count, w, None, o, out, Ok(()), work)?;
    if field != j.g.n + j.d {
        return Err(Refusal {
            reason: Reason::WorkLength,
            value: float::not_a_number(),
        });
    }
    if goes_on(j.g.n, w, j.d) {
        return Err(Refusal {
            reason: Reason::UnitFull,
            value: float::not_a_number(),
        });
    }
    Ok(())
}

// How a unit refuses a job before its start: not at all where it has room.
fn refused_full(
    unit: Rotation,
    n: usize,
    starts: &[u32],
    cols: &[u32],
    vals: &[f64],
    with_mass: bool,
    mass: &[f64],
    tau: f64,
    count: usize,
    w: &[f64],
    o: KrylovPhiOptions,
    out: usize,
    work: usize,
    field: usize,
) -> Checked
    ensures { (output memory lent : List Float) → length output ≡ out → length memory ≡ work → length lent ≡ field → result ≡ (if room unit then Sound else full_answer (start o (record { g = forward (csr n starts.now cols.now vals.now) (given with_mass mass.now); tau = tau; count = count; w = w.now }) output memory lent).answer) }
{
    if rotation::room(unit) {
        return Ok(());
    }
    let matrix = generator_checks::check_generator(n, starts, cols, vals, with_mass, mass)?;
    let g = generator_action::generator_shape(n, with_mass, vals.len(), matrix.norm);
    refused_job(g, tau, count, w, o, out, work, field)
}

// The unit with a run that its start left: one that has ended takes no place.
fn admitted(unit: Rotation, answer: Result<PausedRun, Refusal>) -> Joined
    ensures { result ≡ admitted_of unit answer }
{
    match answer {
        Err(_) => Joined {
            unit,
            place: 16,
            answer,
        },
        Ok(run) => {
            if run.ended {
                return Joined {
                    unit,
                    place: 16,
                    answer,
                };
            }
            let seat = rotation::seated(unit, run);
            Joined {
                unit: seat.unit,
                place: seat.place,
                answer,
            }
        }
    }
}

// A new run joins the end, in the lowest free place.
pub fn join(
    unit: Rotation,
    n: usize,
    starts: &[u32],
    cols: &[u32],
    vals: &[f64],
    with_mass: bool,
    mass: &[f64],
    tau: f64,
    count: usize,
    w: &[f64],
    o: KrylovPhiOptions,
    out: &mut [f64],
    work: &mut [f64],
    field: &mut [f64],
) -> Joined
    ensures { unit_call result.unit result.place (leaves result.answer out.new work.new field.new) ≡ join unit o (record { g = forward (csr n starts.now cols.now vals.now) (given with_mass mass.now); tau = tau; count = count; w = w.now }) out.old work.old field.old }
{
    let full = refused_full(
        unit,
        n,
        starts,
        cols,
        vals,
        with_mass,
        mass,
        tau,
        count,
        w,
        o,
        out.len(),
        work.len(),
        field.len(),
    );
    if let Err(refusal) = full {
        return Joined {
            unit,
            place: 16,
            answer: Err(refusal),
        };
    }
    let answer = paused_start::start(
        n, starts, cols, vals, with_mass, mass, tau, count, w, o, out, work, field,
    );
    admitted(unit, answer)
}
