// A turn of the run that is next on a unit.
#![tactic(auto)]

ghost use Rattle.std.specs.Prelude.{◌≡◌};
ghost use Rattle.general_operator.specs.Csr.{csr};
ghost use Rattle.generator_action.specs.Mass.{given};
ghost use Rattle.generator_action.specs.Generator.{forward};
ghost use Rattle.paused_run.specs.Paused.{leaves};
ghost use Rattle.rotation.specs.Unit.{unit_call, run_left, turn};

use checks::{Reason, Refusal};
use paused_run::{PausedRun, StepRefusal};
use rotation::Rotation;

// The unit after a turn, the place whose turn it was (16: none) and the step's answer.
#[derive(Clone, Copy)]
pub struct Turned {
    pub unit: Rotation,
    pub place: usize,
    pub answer: Result<PausedRun, StepRefusal>,
}

// The run that a step hands back.
fn run_left(answer: Result<PausedRun, StepRefusal>) -> PausedRun
    ensures { result ≡ run_left answer }
{
    match answer {
        Err(r) => r.run,
        Ok(run) => run,
    }
}

// One step of the run whose turn is next; 31 if no run waits.
pub fn turn(
    unit: Rotation,
    tolerance: Option<f64>,
    n: usize,
    starts: &[u32],
    cols: &[u32],
    vals: &[f64],
    with_mass: bool,
    mass: &[f64],
    tau: f64,
    count: usize,
    w: &[f64],
    out: &mut [f64],
    work: &mut [f64],
    field: &mut [f64],
) -> Turned
    ensures { unit_call result.unit result.place (leaves result.answer out.new work.new field.new) ≡ turn unit field.old (record { tolerance = tolerance; job = record { g = forward (csr n starts.now cols.now vals.now) (given with_mass mass.now); tau = tau; count = count; w = w.now }; output = out.old; memory = work.old }) }
{
    let p = rotation::next_place(unit);
    if p == 16 {
        return Turned {
            unit,
            place: 16,
            answer: Err(StepRefusal {
                refusal: Refusal {
                    reason: Reason::RunEnded,
                    value: float::not_a_number(),
                },
                run: rotation::vacant(),
            }),
        };
    }
    let run = rotation::run_at(unit, p);
    let answer = paused_step::step(
        run, tolerance, n, starts, cols, vals, with_mass, mass, tau, count, w, out, work, field,
    );
    let left = run_left(answer);
    Turned {
        unit: rotation::passed_on(unit, left),
        place: p,
        answer,
    }
}
