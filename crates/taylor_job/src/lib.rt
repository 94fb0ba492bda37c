// The run of a Taylor job that passed its checks: the plan, the sweeps, and what is handed out; the calls as definitions.
#![tactic(auto)]

ghost use Rattle.std.specs.Prelude.{◌≡◌, true, ◌+◌, ◌*◌, ◌≤◌, length};
ghost use Rattle.lists.specs.Window.{window, splice};
ghost use Rattle.lists.specs.Frame.{Kept};
ghost use Rattle.doubles.specs.F64.{+0};
ghost use Rattle.checks.specs.First.{first};
ghost use Rattle.general_operator.specs.Csr.{csr, Valid};
ghost use Rattle.generator_action.specs.Mass.{given, stored};
ghost use Rattle.csr_shift.specs.Shift.{negated_csr_shift};
ghost use Rattle.phi_action_helpers.specs.Laid.{matrix_at, operator_in, Ready, Lined};
ghost use Rattle.combination.specs.Call.{ends, cleared};
ghost use Rattle.taylor_schedule.specs.Inner.{Coupled, matrix_of};
ghost use Rattle.taylor_job.specs.Inner.{layout, plan_by, operator_by, job_end, Allowed};
ghost use Rattle.taylor_job.specs.Calls.{report, swept_fields};

use checks::Refusal;
use csr_shift::Shifted;
use general_operator::CsrMatrix;
use phi_action_helpers::{AugmentedOperator, Layout, SweepArgs, SweepPlan};
use taylor_schedule::Job;

// Of an accepted job: the plan, and the products with the generator made, over all sweeps of a batch.
#[derive(Clone, Copy)]
pub struct TaylorReport {
    pub s: u32,
    pub m: u32,
    pub mu: f64,
    pub applications: u64,
}

pub fn layout(n: usize, d: usize, mass: bool) -> Layout
    requires { (n ≤ 1000000) × (d ≤ 3) }
    ensures { result ≡ layout n d mass }
{
    Layout {
        n,
        d,
        w: n + d,
        av: 2 * (n + d),
        q: 3 * n + 2 * d,
        mass,
    }
}

// The shift, of the quotients in the lent memory where there is a mass.
pub fn shift_at(
    starts: &[u32],
    cols: &[u32],
    vals: &[f64],
    work: &[f64],
    l: Layout,
    norm: f64,
) -> Option<Shifted>
    requires valid { Valid (matrix_at l starts.now cols.now vals.now work.now) }
    requires vals_in_bounds { l.mass ≡ true → l.q + length vals.now ≤ length work.now }
    ensures { result ≡ negated_csr_shift (matrix_at l starts.now cols.now vals.now work.now) norm }
{
    let n = l.n;
    if l.mass {
        let from = l.q;
        let to = from + vals.len();
        let quotients = CsrMatrix {
            n,
            starts,
            cols,
            vals: &work[from..to],
        };
        return csr_shift::negated_csr_shift(quotients, norm);
    }
    let entries = CsrMatrix {
        n,
        starts,
        cols,
        vals,
    };
    csr_shift::negated_csr_shift(entries, norm)
}

// The quotients in their place, and the plan from the row that the checks found.
pub fn prepare(
    starts: &[u32],
    cols: &[u32],
    vals: &[f64],
    mass: &[f64],
    work: &mut [f64],
    j: Job,
) -> SweepPlan
    requires { Allowed starts.now cols.now vals.now mass.now work.old j }
    ensures value { result ≡ plan_by j (matrix_of j.g starts.now cols.now vals.now mass.now) }
    ensures work_after { work.new ≡ splice (layout j.g.n j.d j.g.with_mass).q (stored (csr j.g.n starts.now cols.now vals.now) (given j.g.with_mass mass.now)) work.old }
{
    let g = j.g;
    let l = layout(g.n, j.d, g.with_mass);
    let matrix = CsrMatrix {
        n: g.n,
        starts,
        cols,
        vals,
    };
    stored_quotients::store_quotients(matrix, g.with_mass, mass, work, l.q);
    let shift = shift_at(starts, cols, vals, work, l, g.norm);
    phi_shift::with_shift(j.cap, j.tau, j.row, shift)
}

// The sweeps, and their n values from `place` of the output on.
pub fn swept_out(out: &mut [f64], place: usize, work: &mut [f64], x: SweepArgs) -> u64
    requires ready { Ready x.o work.old }
    requires lined { Lined x.o.l × (x.p.m ≤ 30) × (place + x.o.l.n ≤ length out.old) }
    ensures value { result ≡ (swept_fields (operator_in x.entry.o work.old) x.entry.tau (window 0 (x.entry.o.l.n + x.entry.o.l.d) work.old) x.entry.p).applied }
    ensures out_after { out.new ≡ splice place (swept_fields (operator_in x.entry.o work.old) x.entry.tau (window 0 (x.entry.o.l.n + x.entry.o.l.d) work.old) x.entry.p).fields out.old }
    ensures kept { Kept 0 x.entry.o.l.q +0 work.old work.new }
{
    let n = x.o.l.n;
    let applied = taylor_sweeps::run_sweeps(work, x);
    vectors::copy_from(out, place, work, 0, n);
    applied
}

// The report; what was needed is cleared.
pub fn finish(
    work: &mut [f64],
    need: usize,
    p: SweepPlan,
    applied: u64,
) -> Result<TaylorReport, Refusal>
    requires { need ≤ length work.old }
    ensures value { result ≡ report p applied }
    ensures work_after { work.new ≡ cleared need work.old }
{
    vectors::clear_in(work, 0, need);
    Ok(TaylorReport {
        s: p.s,
        m: p.m,
        mu: p.mu,
        applications: applied,
    })
}

// A job whose first field stands at the front of the lent memory.
pub fn run_job(
    starts: &[u32],
    cols: &[u32],
    vals: &[f64],
    mass: &[f64],
    vectors: &[f64],
    out: &mut [f64],
    work: &mut [f64],
    j: Job,
) -> Result<TaylorReport, Refusal>
    requires allowed { Allowed starts.now cols.now vals.now mass.now work.old j }
    requires coupled { Coupled j.b j.g.n j.d (length vectors.now) × (length out.old ≡ j.g.n) }
    ensures { ends result out.new work.new ≡ job_end j (matrix_of j.g starts.now cols.now vals.now mass.now) (swept_fields (operator_by j (matrix_of j.g starts.now cols.now vals.now mass.now) vectors.now) j.tau (window 0 (j.g.n + j.d) work.old)) work.old }
{
    let g = j.g;
    let l = layout(g.n, j.d, g.with_mass);
    let p = prepare(starts, cols, vals, mass, work, j);
    let o = AugmentedOperator {
        starts,
        cols,
        vals,
        vectors,
        l,
        b: j.b,
    };
    let x = SweepArgs { o, tau: j.tau, p };
    let applied = swept_out(out, 0, work, x);
    finish(work, j.need, p, applied)
}
