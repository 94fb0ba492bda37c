// One record of a soak under a changing ambient level: the Taylor combination of the field and of the load times the level.
#![tactic(auto)]

ghost use Rattle.std.specs.Prelude.{◌≡◌, List, ◌+◌, ◌≤◌, length};
ghost use Rattle.lists.specs.Window.{window};
ghost use Rattle.checks.specs.First.{Check, first};
ghost use Rattle.checks.specs.Reasons.{Sound};
ghost use Rattle.general_operator.specs.Csr.{csr};
ghost use Rattle.generator_action.specs.Mass.{given};
ghost use Rattle.generator_action.specs.Known.{Passed};
ghost use Rattle.combination.specs.Call.{ends};
ghost use Rattle.taylor_schedule.specs.Inner.{Coupled, matrix_of, after_checks};
ghost use Rattle.taylor_job.specs.Calls.{swept_fields};
ghost use Rattle.taylor_job.specs.Inner.{operator_by, Allowed};
ghost use Rattle.combination.specs.Combination.{field_of};
ghost use Rattle.ambient_record.specs.Record.{record_call};
ghost use Rattle.ambient_record.specs.Inner.{record_end};

use checks::Refusal;
use generator_action::Shape;
use phi_action_helpers::{AugmentedOperator, SweepArgs};
use taylor_job::TaylorReport;
use taylor_schedule::Job;

// The run of a record that passed: w_1 lies in the output, which is free until the field is copied there, and w_0 at the front of the memory.
fn run_record(
    starts: &[u32],
    cols: &[u32],
    vals: &[f64],
    mass: &[f64],
    out: &mut [f64],
    work: &mut [f64],
    j: Job,
) -> Result<TaylorReport, Refusal>
    requires allowed { Allowed starts.now cols.now vals.now mass.now work.old j }
    requires coupled { Coupled j.b j.g.n j.d (length out.old) × (length out.old ≡ j.g.n) × (j.need + j.g.n ≤ length work.old) }
    ensures { ends result out.new work.new ≡ record_end j (matrix_of j.g starts.now cols.now vals.now mass.now) (swept_fields (operator_by j (matrix_of j.g starts.now cols.now vals.now mass.now) out.old) j.tau (window 0 (j.g.n + j.d) work.old)) work.old }
{
    let g = j.g;
    let l = taylor_job::layout(g.n, j.d, g.with_mass);
    let n = l.n;
    let p = taylor_job::prepare(starts, cols, vals, mass, work, j);
    let o = AugmentedOperator {
        starts,
        cols,
        vals,
        vectors: out,
        l,
        b: j.b,
    };
    let x = SweepArgs { o, tau: j.tau, p };
    let applied = taylor_sweeps::run_sweeps(work, x);
    vectors::copy_from(out, 0, work, 0, n);
    taylor_job::finish(work, j.need + g.n, p, applied)
}

// A record: its checks, then its run. The field is the first one or the output's.
pub fn record_call(
    starts: &[u32],
    cols: &[u32],
    vals: &[f64],
    mass: &[f64],
    g: Shape,
    duration: f64,
    level: f64,
    initial: bool,
    field: &[f64],
    load: &[f64],
    out: &mut [f64],
    work: &mut [f64],
) -> Result<TaylorReport, Refusal>
    requires passed { Passed (csr g.n starts.now cols.now vals.now) (given g.with_mass mass.now) g }
    requires field_len { (length field.now ≡ g.n) × (length load.now ≡ g.n) × (length out.old ≡ g.n) }
    ensures { (gs : List Check) → Sound ≡ first gs → ends result out.new work.new ≡ record_call (after_checks gs (csr g.n starts.now cols.now vals.now) (given g.with_mass mass.now) g) duration level (field_of initial field.now out.old) load.now out.old work.old }
{
    record_checks::check_record(duration, level, initial, field, out, load)?;
    let j = record_checks::admit_record(g, duration, level, load, work.len())?;
    record_start::start_record(initial, field, out, g.n, j.inv, work);
    record_start::scale_into(load, level, out);
    run_record(starts, cols, vals, mass, out, work, j)
}
