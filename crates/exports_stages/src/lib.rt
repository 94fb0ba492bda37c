// A soak in stages for programs in other languages: straight on slices, with no copy and no memory of its own.
#![tactic(auto)]

ghost use Rattle.std.specs.Prelude.{◌≡◌};
ghost use Rattle.combination.specs.Call.{ends};
ghost use Rattle.general_operator.specs.Csr.{csr};
ghost use Rattle.generator_action.specs.Mass.{given};
ghost use Rattle.generator_action.specs.Generator.{forward};
ghost use Rattle.phi_solver.specs.Combine.{answering};
ghost use Rattle.schedule_checks.specs.Inner.{schedule_of};
ghost use Rattle.stage_calls.specs.Stages.{staged};
ghost use Rattle.exports_stages.specs.Told.{staged_numbers, staged_told};

use schedule_checks::{StageRefusal, StagedReport};

// The result is 0 or the refusal's number; `value` is 0 or the refusal's double; `stage` is 0 where no stage was refused.
fn staged_told(
    answer: Result<StagedReport, StageRefusal>,
    value: &mut f64,
    stage: &mut u32,
    applications: &mut u64,
    substeps: &mut u64,
    rejected: &mut u64,
) -> u32
    ensures { staged_numbers result value.new stage.new applications.new substeps.new rejected.new ≡ staged_told answer }
{
    match answer {
        Err(e) => {
            *value = e.refusal.value;
            *stage = e.stage;
            *applications = 0;
            *substeps = 0;
            *rejected = 0;
            e.refusal.reason.number()
        }
        Ok(r) => {
            *value = 0.0;
            *stage = 0;
            *applications = r.applications;
            *substeps = r.substeps;
            *rejected = r.rejected;
            0
        }
    }
}

// `stages::stages`, told by `staged_told`.
#[unsafe(no_mangle)]
pub extern "C" fn hazhendu_stages(
    n: usize,
    starts: &[u32],
    cols: &[u32],
    vals: &[f64],
    with_mass: bool,
    mass: &[f64],
    taus: &[f64],
    counts: &[usize],
    solvers: &[u32],
    degrees: &[u32],
    tols: &[f64],
    ms: &[usize],
    limits: &[usize],
    start: &[f64],
    further: &[f64],
    out: &mut [f64],
    work: &mut [f64],
    value: &mut f64,
    stage: &mut u32,
    applications: &mut u64,
    substeps: &mut u64,
    rejected: &mut u64,
) -> u32
    ensures { ends (staged_numbers result value.new stage.new applications.new substeps.new rejected.new) out.new work.new ≡ answering staged_told (staged (forward (csr n starts.now cols.now vals.now) (given with_mass mass.now)) (schedule_of taus.now counts.now solvers.now degrees.now tols.now ms.now limits.now) start.now further.now out.old work.old) }
{
    let answer = stages::stages(
        n, starts, cols, vals, with_mass, mass, taus, counts, solvers, degrees, tols, ms, limits,
        start, further, out, work,
    );
    staged_told(answer, value, stage, applications, substeps, rejected)
}
