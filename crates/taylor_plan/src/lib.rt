// The plan of a Taylor job alone: what its run would report, and no run.
#![tactic(auto)]

ghost use Rattle.std.specs.Prelude.{◌≡◌, List, [], ◌≤◌, length};
ghost use Rattle.lists.specs.Window.{splice};
ghost use Rattle.checks.specs.First.{Check, first, or_first};
ghost use Rattle.checks.specs.Reasons.{Sound};
ghost use Rattle.general_operator.specs.Csr.{csr};
ghost use Rattle.generator_action.specs.Mass.{given, stored};
ghost use Rattle.generator_action.specs.Generator.{forward};
ghost use Rattle.generator_action.specs.Known.{Passed};
ghost use Rattle.csr_shift.specs.Shift.{negated_csr_shift};
ghost use Rattle.phi_shift.specs.Plan.{with_shift};
ghost use Rattle.combination.specs.Call.{ends};
ghost use Rattle.taylor_schedule.specs.Inner.{scheduled, matrix_of, after_checks};
ghost use Rattle.taylor_plan.specs.Inner.{quotients_alone, plan_refusals};
ghost use Rattle.taylor_plan.specs.TaylorPlan.{taylor_plan};

use checks::Refusal;
use expmv::Row;
use general_operator::CsrMatrix;
use generator_action::Shape;
use phi_action_helpers::{Layout, SweepPlan};
use taylor_job::TaylorReport;

// 14, 33 and 24 to 26: the row of the schedule.
fn admit_plan(g: Shape, tau: f64, cap: u32, memory: usize) -> Result<Row, Refusal>
    ensures { result ≡ or_first (plan_refusals g tau cap memory) (scheduled cap g.norm tau) }
{
    combination::check_plan(tau, cap)?;
    let row = taylor_schedule::check_schedule(cap, g.norm, tau)?;
    combination::check_memory(memory, g.stored)?;
    Ok(row)
}

// The quotients stand at the front of the lent memory, and nothing behind them.
fn quotients_alone(n: usize, mass: bool) -> Layout
    ensures { result ≡ quotients_alone n mass }
{
    Layout {
        n,
        d: 0,
        w: 0,
        av: 0,
        q: 0,
        mass,
    }
}

// The plan from the row that the checks found, by the quotients in the lent memory.
fn from_row(
    starts: &[u32],
    cols: &[u32],
    vals: &[f64],
    mass: &[f64],
    work: &mut [f64],
    g: Shape,
    tau: f64,
    cap: u32,
    row: Row,
) -> SweepPlan
    requires passed { Passed (csr g.n starts.now cols.now vals.now) (given g.with_mass mass.now) g }
    requires stored_in_bounds { g.stored ≤ length work.old }
    ensures value { result ≡ with_shift cap tau row (negated_csr_shift (matrix_of g starts.now cols.now vals.now mass.now) g.norm) }
    ensures work_after { work.new ≡ splice 0 (stored (csr g.n starts.now cols.now vals.now) (given g.with_mass mass.now)) work.old }
{
    let l = quotients_alone(g.n, g.with_mass);
    let q = CsrMatrix {
        n: g.n,
        starts,
        cols,
        vals,
    };
    stored_quotients::store_quotients(q, g.with_mass, mass, work, 0);
    let shift = taylor_job::shift_at(starts, cols, vals, work, l, g.norm);
    phi_shift::with_shift(cap, tau, row, shift)
}

// Over a generator that passed its checks.
fn planned(
    starts: &[u32],
    cols: &[u32],
    vals: &[f64],
    mass: &[f64],
    g: Shape,
    tau: f64,
    cap: u32,
    work: &mut [f64],
) -> Result<TaylorReport, Refusal>
    requires { Passed (csr g.n starts.now cols.now vals.now) (given g.with_mass mass.now) g }
    ensures { (gs : List Check) → Sound ≡ first gs → ends result [] work.new ≡ taylor_plan (after_checks gs (csr g.n starts.now cols.now vals.now) (given g.with_mass mass.now) g) tau cap work.old }
{
    let row = admit_plan(g, tau, cap, work.len())?;
    let p = from_row(starts, cols, vals, mass, work, g, tau, cap, row);
    let cost = Row { s: p.s, m: p.m }.cost();
    taylor_job::finish(work, g.stored, p, cost)
}

// What a Taylor job over this matrix, mass, time and highest degree would report, before it is run: its applications are s * m.
pub fn taylor_plan(
    n: usize,
    starts: &[u32],
    cols: &[u32],
    vals: &[f64],
    with_mass: bool,
    mass: &[f64],
    tau: f64,
    cap: u32,
    work: &mut [f64],
) -> Result<TaylorReport, Refusal>
    ensures { ends result [] work.new ≡ taylor_plan (forward (csr n starts.now cols.now vals.now) (given with_mass mass.now)) tau cap work.old }
{
    let matrix = generator_checks::check_generator(n, starts, cols, vals, with_mass, mass)?;
    let g = generator_action::generator_shape(n, with_mass, vals.len(), matrix.norm);
    planned(starts, cols, vals, mass, g, tau, cap, work)
}
