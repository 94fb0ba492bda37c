// One stage of a soak in stages: the single call that it is.
#![tactic(auto)]

ghost use Rattle.std.specs.Prelude.{◌≡◌, List, ◌++◌, ◌+◌, ◌-◌, ◌*◌, ◌≤◌, length};
ghost use Rattle.checks.specs.First.{Check, first};
ghost use Rattle.checks.specs.Reasons.{Sound};
ghost use Rattle.general_operator.specs.Csr.{csr};
ghost use Rattle.generator_action.specs.Mass.{given};
ghost use Rattle.generator_action.specs.Known.{Passed};
ghost use Rattle.combination.specs.Checks.{time_checks, plan_checks};
ghost use Rattle.combination.specs.Call.{ends};
ghost use Rattle.taylor_schedule.specs.Inner.{after_checks};
ghost use Rattle.taylor_job.specs.Calls.{phi_combination};
ghost use Rattle.krylov_job.specs.KrylovCall.{phi_combination_krylov};
ghost use Rattle.phi_solver.specs.Combine.{combine};
ghost use Rattle.schedule_checks.specs.Schedule.{time_checks_of};
ghost use Rattle.combination.specs.Combination.{field_of};
ghost use Rattle.stage_calls.specs.Inner.{Whole, stage_end};

use checks::Refusal;
use generator_action::Shape;
use krylov_advance::KrylovPhiReport;
use krylov_job::KrylovPhiOptions;
use phi_solver::{PhiReport, PhiSolver};
use schedule_checks::Stage;
use taylor_job::TaylorReport;

// A Taylor stage whose 12 to 16 have passed.
fn taylor_stage(
    starts: &[u32],
    cols: &[u32],
    vals: &[f64],
    mass: &[f64],
    g: Shape,
    tau: f64,
    cap: u32,
    count: usize,
    initial: bool,
    start: &[f64],
    vectors: &[f64],
    out: &mut [f64],
    work: &mut [f64],
) -> Result<TaylorReport, Refusal>
    requires passed { Passed (csr g.n starts.now cols.now vals.now) (given g.with_mass mass.now) g }
    requires whole { Whole g.n count (length (field_of initial start.now out.old)) (length vectors.now) (length out.old) × (Sound ≡ first (plan_checks tau cap)) }
    ensures { (gs : List Check) → Sound ≡ first gs → ends result out.new work.new ≡ phi_combination (after_checks gs (csr g.n starts.now cols.now vals.now) (given g.with_mass mass.now) g) tau cap count (field_of initial start.now out.old ++ vectors.now) out.old work.old }
{
    stage_checks::check_field(initial, start, out, vectors)?;
    let d = count - 1;
    let j = admission::admit_combination(g, tau, cap, d, vectors, work.len())?;
    stage_turns::start_field(initial, start, out, g.n, d, j.inv, work, 0);
    taylor_job::run_job(starts, cols, vals, mass, vectors, out, work, j)
}

// A Krylov stage whose 12 to 16 have passed.
fn krylov_stage(
    starts: &[u32],
    cols: &[u32],
    vals: &[f64],
    mass: &[f64],
    g: Shape,
    tau: f64,
    o: KrylovPhiOptions,
    count: usize,
    initial: bool,
    start: &[f64],
    vectors: &[f64],
    out: &mut [f64],
    work: &mut [f64],
) -> Result<KrylovPhiReport, Refusal>
    requires passed { Passed (csr g.n starts.now cols.now vals.now) (given g.with_mass mass.now) g }
    requires whole { Whole g.n count (length (field_of initial start.now out.old)) (length vectors.now) (length out.old) × (Sound ≡ first (time_checks tau)) }
    ensures { (gs : List Check) → Sound ≡ first gs → ends result out.new work.new ≡ phi_combination_krylov (after_checks gs (csr g.n starts.now cols.now vals.now) (given g.with_mass mass.now) g) tau count (field_of initial start.now out.old ++ vectors.now) o out.old work.old }
{
    let d = count - 1;
    let m = krylov_job::clamp_m(o.m, g.n + d);
    stage_checks::check_field(initial, start, out, vectors)?;
    krylov_job::check_options(o, m)?;
    let j = krylov_job::admit_run(g, tau, d, vectors, None, o, m, work.len())?;
    stage_turns::start_field(initial, start, out, g.n, d, j.eta.inv, work, j.k.y);
    krylov_run::run_job(starts, cols, vals, mass, vectors, out, work, j)
}

// The single call of a stage whose 12 to 16 have passed.
fn stage_call(
    starts: &[u32],
    cols: &[u32],
    vals: &[f64],
    mass: &[f64],
    g: Shape,
    s: Stage,
    initial: bool,
    start: &[f64],
    vectors: &[f64],
    out: &mut [f64],
    work: &mut [f64],
) -> Result<PhiReport, Refusal>
    requires passed { Passed (csr g.n starts.now cols.now vals.now) (given g.with_mass mass.now) g }
    requires whole { Whole g.n s.count (length (field_of initial start.now out.old)) (length vectors.now) (length out.old) × (Sound ≡ first (time_checks_of s.solver s.tau)) }
    ensures { (gs : List Check) → Sound ≡ first gs → ends result out.new work.new ≡ combine s.solver (after_checks gs (csr g.n starts.now cols.now vals.now) (given g.with_mass mass.now) g) s.tau s.count (field_of initial start.now out.old ++ vectors.now) out.old work.old }
{
    let tau = s.tau;
    let count = s.count;
    let solver = s.solver;
    match solver {
        PhiSolver::Taylor(cap) => phi_solver::of_taylor(taylor_stage(
            starts, cols, vals, mass, g, tau, cap, count, initial, start, vectors, out, work,
        )),
        PhiSolver::Krylov(o) => phi_solver::of_krylov(krylov_stage(
            starts, cols, vals, mass, g, tau, o, count, initial, start, vectors, out, work,
        )),
    }
}

// A stage: its checks, and its single call with the next vectors of the slice.
pub fn run_stage(
    starts: &[u32],
    cols: &[u32],
    vals: &[f64],
    mass: &[f64],
    g: Shape,
    s: Stage,
    initial: bool,
    last: bool,
    used: usize,
    start: &[f64],
    further: &[f64],
    out: &mut [f64],
    work: &mut [f64],
) -> Result<PhiReport, Refusal>
    requires passed { Passed (csr g.n starts.now cols.now vals.now) (given g.with_mass mass.now) g }
    requires used_bound { used ≤ 192000000 }
    ensures { (gs : List Check) → Sound ≡ first gs → ends result out.new work.new ≡ stage_end (after_checks gs (csr g.n starts.now cols.now vals.now) (given g.with_mass mass.now) g) s last used further.now (field_of initial start.now out.old) out.old work.old }
{
    let n = g.n;
    let field = stage_turns::field_length(initial, start.len(), out.len());
    stage_checks::check_stage(n, s, last, out.len(), field, used, further.len())?;
    let to = used + (s.count - 1) * n;
    let vectors = &further[used..to];
    stage_call(
        starts, cols, vals, mass, g, s, initial, start, vectors, out, work,
    )
}
