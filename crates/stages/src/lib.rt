// A soak in stages: single calls in a row over one matrix, the field of one being w_0 of the next.
#![tactic(auto)]

ghost use Rattle.std.specs.Prelude.{◌≡◌, List, ◌+◌, ◌-◌, length, Float};
ghost use Rattle.lists.specs.Walk.{walk, on};
ghost use Rattle.checks.specs.First.{first};
ghost use Rattle.checks.specs.Reasons.{Sound};
ghost use Rattle.general_operator.specs.Csr.{csr};
ghost use Rattle.generator_action.specs.Mass.{given, quotient_need, generator_checks};
ghost use Rattle.generator_action.specs.Generator.{forward};
ghost use Rattle.generator_action.specs.Known.{Passed};
ghost use Rattle.combination.specs.Call.{ends};
ghost use Rattle.schedule_checks.specs.Schedule.{schedule_checks};
ghost use Rattle.stage_calls.specs.Stages.{stage_step, begun, concluded, staged};
ghost use Rattle.schedule_checks.specs.Inner.{schedule_of, turn_at};

use generator_action::Shape;
use schedule_checks::{SoFar, StageRefusal, StagedReport};

// The stages in order: the first starts from `start`, each other from what the one before it left in the output.
fn run_stages(
    starts: &[u32],
    cols: &[u32],
    vals: &[f64],
    mass: &[f64],
    g: Shape,
    taus: &[f64],
    counts: &[usize],
    solvers: &[u32],
    degrees: &[u32],
    tols: &[f64],
    ms: &[usize],
    limits: &[usize],
    start: &[f64],
    further: &[f64],
    out: &mut [f64],
    work: &mut [f64],
) -> Result<SoFar, StageRefusal>
    requires passed { Passed (csr g.n starts.now cols.now vals.now) (given g.with_mass mass.now) g }
    requires value { (Sound ≡ first (generator_checks (csr g.n starts.now cols.now vals.now) (given g.with_mass mass.now))) × (g.stored ≡ quotient_need (csr g.n starts.now cols.now vals.now) (given g.with_mass mass.now)) }
    requires value_2 { Sound ≡ first (schedule_checks (schedule_of taus.now counts.now solvers.now degrees.now tols.now ms.now limits.now)) }
    ensures { turn_at result out.new out.new work.new ≡ walk (stage_step (forward (csr g.n starts.now cols.now vals.now) (given g.with_mass mass.now)) (schedule_of taus.now counts.now solvers.now degrees.now tols.now ms.now limits.now) further.now) (length taus.now) 0 (on (begun start.now out.old work.old)) }
{
    let k = taus.len();
    let none = StagedReport {
        applications: 0,
        substeps: 0,
        rejected: 0,
    };
    let mut turn = Ok(SoFar {
        used: 0,
        report: none,
    });
    // i is the stage's number: seven lists have a place for it, it tells the first and the last one, and stands in a refusal
    for i in 0..k {
        let Ok(p) = turn else {
            return turn;
        };
        let s = stage_checks::stage_at(i, taus, counts, solvers, degrees, tols, ms, limits);
        let answer = stage_calls::run_stage(
            starts,
            cols,
            vals,
            mass,
            g,
            s,
            i == 0,
            i + 1 == k,
            p.used,
            start,
            further,
            out,
            work,
        );
        turn = stage_turns::settle(i, p, g.n, s.count, answer);
    }
    turn
}

fn conclude(turn: Result<SoFar, StageRefusal>) -> Result<StagedReport, StageRefusal>
    ensures { (field output memory : List Float) → ends result output memory ≡ concluded (turn_at turn field output memory) }
{
    Ok(turn?.report)
}

// A soak in stages over one matrix: `further` holds the further vectors of all stages in stage order, and the lists have one number for each stage.
pub fn stages(
    n: usize,
    starts: &[u32],
    cols: &[u32],
    vals: &[f64],
    with_mass: bool,
    mass: &[f64],
    taus: &[f64],
    counts: &[usize],
    solvers: &[u32],
    degrees: &[u32],
    tols: &[f64],
    ms: &[usize],
    limits: &[usize],
    start: &[f64],
    further: &[f64],
    out: &mut [f64],
    work: &mut [f64],
) -> Result<StagedReport, StageRefusal>
    ensures { ends result out.new work.new ≡ staged (forward (csr n starts.now cols.now vals.now) (given with_mass mass.now)) (schedule_of taus.now counts.now solvers.now degrees.now tols.now ms.now limits.now) start.now further.now out.old work.old }
{
    let matrix = generator_checks::check_generator(n, starts, cols, vals, with_mass, mass);
    let norm = match matrix {
        Err(refusal) => return Err(StageRefusal { refusal, stage: 0 }),
        Ok(l) => l.norm,
    };
    let schedule = schedule_checks::check_schedule(
        taus, counts, solvers, degrees, tols, ms, limits,
    );
    if let Err(refusal) = schedule {
        return Err(StageRefusal { refusal, stage: 0 });
    }
    let g = generator_action::generator_shape(n, with_mass, vals.len(), norm);
    conclude(run_stages(
        starts, cols, vals, mass, g, taus, counts, solvers, degrees, tols, ms, limits, start,
        further, out, work,
    ))
}
