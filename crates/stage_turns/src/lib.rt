// What a stage starts from, and what is counted behind it.
#![tactic(auto)]

ghost use Rattle.std.specs.Prelude.{◌≡◌, List, ◌+◌, ◌-◌, ◌*◌, ◌≤◌, length, Float};
ghost use Rattle.lists.specs.Window.{splice};
ghost use Rattle.checks.specs.First.{first};
ghost use Rattle.combination.specs.Combination.{combination_start};
ghost use Rattle.combination.specs.Call.{ends};
ghost use Rattle.schedule_checks.specs.Schedule.{stage, settle};
ghost use Rattle.schedule_checks.specs.Inner.{turn_at, Few, Counted, Moderate, counted_by};
ghost use Rattle.combination.specs.Combination.{field_of};

use checks::Refusal;
use phi_solver::PhiReport;
use schedule_checks::{SoFar, StageRefusal, StagedReport};

// The first field of a stage's run, from place `at` of the lent memory on.
pub fn start_field(
    initial: bool,
    start: &[f64],
    out: &[f64],
    n: usize,
    d: usize,
    inv: f64,
    work: &mut [f64],
    at: usize,
)
    requires { (length (field_of initial start.now out.now) ≡ n) × (at + (n + d) ≤ length work.old) }
    ensures { work.new ≡ splice at (combination_start n (field_of initial start.now out.now) d inv) work.old }
{
    if initial {
        krylov_run::start_in(n, start, d, inv, work, at);
        return;
    }
    krylov_run::start_in(n, out, d, inv, work, at);
}

// How many values w_0 has.
pub fn field_length(initial: bool, start: usize, output: usize) -> usize
    ensures { (xs ys : List Float) → start ≡ length xs → output ≡ length ys → result ≡ length (field_of initial xs ys) }
{
    if initial {
        return start;
    }
    output
}

// The counts so far and those of one call, with what its vectors use of the slice.
fn counted(p: SoFar, need: usize, applications: u64, substeps: u64, rejected: u64) -> SoFar
    requires { Counted 63 p × (need ≤ 3000000) × (applications ≤ 128849018850) × (substeps ≤ 1000000) × (rejected ≤ 10000000) }
    ensures { result ≡ counted_by p need applications substeps rejected }
{
    let r = p.report;
    let report = StagedReport {
        applications: r.applications + applications,
        substeps: r.substeps + substeps,
        rejected: r.rejected + rejected,
    };
    SoFar {
        used: p.used + need,
        report,
    }
}

// A refusal ends the soak and names stage i + 1; Taylor has no substeps and rejects nothing.
pub fn settle(
    i: usize,
    p: SoFar,
    n: usize,
    count: usize,
    answer: Result<PhiReport, Refusal>,
) -> Result<SoFar, StageRefusal>
    requires { (i ≤ 63) × Counted i p × (n ≤ 1000000) × Few count answer }
    ensures memory_value { (output memory : List Float) → turn_at result output output memory ≡ settle i (p.used + (count - 1) * n) p.report (ends answer output memory) answer }
    ensures moderate { Moderate (i + 1) result }
{
    let report = match answer {
        Err(refusal) => {
            return Err(StageRefusal {
                refusal,
                stage: i as u32 + 1,
            });
        }
        Ok(report) => report,
    };
    match report {
        PhiReport::Taylor(t) => {
            let need = (count - 1) * n;
            Ok(counted(p, need, t.applications, 0, 0))
        }
        PhiReport::Krylov(t) => {
            let need = (count - 1) * n;
            let applications = t.matvecs as u64;
            Ok(counted(p, need, applications, t.substeps as u64, t.rejected as u64))
        }
    }
}
