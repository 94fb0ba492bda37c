// The batch: phi_0 to phi_p of one vector, over one plan.
#![tactic(auto)]

ghost use Rattle.std.specs.Prelude.{◌≡◌, List, ◌+◌, ◌*◌, ◌≤◌, length};
ghost use Rattle.lists.specs.Frame.{Kept};
ghost use Rattle.doubles.specs.F64.{+0};
ghost use Rattle.checks.specs.First.{Check, first};
ghost use Rattle.checks.specs.Reasons.{Sound};
ghost use Rattle.general_operator.specs.Csr.{csr};
ghost use Rattle.generator_action.specs.Mass.{given};
ghost use Rattle.generator_action.specs.Generator.{forward};
ghost use Rattle.generator_action.specs.Known.{Passed};
ghost use Rattle.phi_action_helpers.specs.Laid.{operator_in, Ready, Lined};
ghost use Rattle.combination.specs.Call.{ends};
ghost use Rattle.taylor_schedule.specs.Inner.{Coupled, matrix_of, after_checks};
ghost use Rattle.taylor_job.specs.Inner.{layout, operator_by, job_end, Allowed};
ghost use Rattle.taylor_job.specs.Calls.{batched, phi_action_batched};

use checks::Refusal;
use generator_action::Shape;
use phi_action_helpers::{AugmentedOperator, SweepArgs};
use taylor_job::TaylorReport;
use taylor_schedule::Job;

// The sweeps of phi_0 up to phi_(count - 1) of the one vector, one after the other; the products of all. Inlined into the exported call, a batch takes
// 1.1 to 1.3 of the time, and 1.34 over 4 rows.
#[inline(never)]
fn sweep_batch(out: &mut [f64], work: &mut [f64], x: SweepArgs, inv: f64, count: usize) -> u64
    requires ready { Ready x.o work.old }
    requires lined { Lined x.o.l × (x.p.s ≤ 4294967295) × (x.p.m ≤ 30) × (x.o.l.d ≡ 3) }
    requires v_len { (length x.o.vectors.now ≡ x.o.l.n) × (count ≤ 4) × (length out.old ≡ count * x.o.l.n) }
    ensures value { result ≡ (batched (operator_in x.entry.o work.old) x.entry.tau x.entry.o.vectors.now inv count x.entry.p).applied }
    ensures out_after { out.new ≡ (batched (operator_in x.entry.o work.old) x.entry.tau x.entry.o.vectors.now inv count x.entry.p).fields }
    ensures kept { Kept 0 x.entry.o.l.q +0 work.old work.new }
{
    let n = x.o.l.n;
    let mut applied = 0u64;
    // k is the index of the phi-function, which the start takes too
    for k in 0..count {
        start_vectors::init_aug_vector(n, x.o.vectors, k, inv, work);
        applied = applied + taylor_job::swept_out(out, k * n, work, x);
    }
    applied
}

// A batch: the plan once, the sweeps of each function.
fn run_batch(
    starts: &[u32],
    cols: &[u32],
    vals: &[f64],
    mass: &[f64],
    v: &[f64],
    out: &mut [f64],
    work: &mut [f64],
    j: Job,
    count: usize,
) -> Result<TaylorReport, Refusal>
    requires allowed { Allowed starts.now cols.now vals.now mass.now work.old j }
    requires coupled { Coupled j.b j.g.n j.d (length v.now) }
    requires d_value { (j.d ≡ 3) × (length v.now ≡ j.g.n) × (count ≤ 4) × (length out.old ≡ count * j.g.n) }
    ensures { ends result out.new work.new ≡ job_end j (matrix_of j.g starts.now cols.now vals.now mass.now) (batched (operator_by j (matrix_of j.g starts.now cols.now vals.now mass.now) v.now) j.tau v.now j.inv count) work.old }
{
    let g = j.g;
    let l = taylor_job::layout(g.n, j.d, g.with_mass);
    let p = taylor_job::prepare(starts, cols, vals, mass, work, j);
    let o = AugmentedOperator {
        starts,
        cols,
        vals,
        vectors: v,
        l,
        b: j.b,
    };
    let x = SweepArgs { o, tau: j.tau, p };
    let applied = sweep_batch(out, work, x, j.inv, count);
    taylor_job::finish(work, j.need, p, applied)
}

// The batch over a generator that passed its checks. An index above 3 is refused before the output's length is computed.
pub fn acted_batched(
    starts: &[u32],
    cols: &[u32],
    vals: &[f64],
    mass: &[f64],
    g: Shape,
    tau: f64,
    cap: u32,
    p: usize,
    v: &[f64],
    out: &mut [f64],
    work: &mut [f64],
) -> Result<TaylorReport, Refusal>
    requires { Passed (csr g.n starts.now cols.now vals.now) (given g.with_mass mass.now) g }
    ensures { (gs : List Check) → Sound ≡ first gs → ends result out.new work.new ≡ phi_action_batched (after_checks gs (csr g.n starts.now cols.now vals.now) (given g.with_mass mass.now) g) tau cap p v.now out.old work.old }
{
    combination::check_index(p)?;
    let count = p + 1;
    let j = admission::admit_action(g, tau, cap, p, v, out.len(), count * g.n, work.len())?;
    run_batch(starts, cols, vals, mass, v, out, work, j, count)
}

// phi_0(tau G) v up to phi_p(tau G) v, one after the other.
pub fn phi_action_batched(
    n: usize,
    starts: &[u32],
    cols: &[u32],
    vals: &[f64],
    with_mass: bool,
    mass: &[f64],
    tau: f64,
    cap: u32,
    p: usize,
    v: &[f64],
    out: &mut [f64],
    work: &mut [f64],
) -> Result<TaylorReport, Refusal>
    ensures { ends result out.new work.new ≡ phi_action_batched (forward (csr n starts.now cols.now vals.now) (given with_mass mass.now)) tau cap p v.now out.old work.old }
{
    let matrix = generator_checks::check_generator(n, starts, cols, vals, with_mass, mass)?;
    let g = generator_action::generator_shape(n, with_mass, vals.len(), matrix.norm);
    acted_batched(starts, cols, vals, mass, g, tau, cap, p, v, out, work)
}
