// The run of a Krylov job that passed its checks: the start, the substeps, and what is handed out.
#![tactic(auto)]

ghost use Rattle.std.specs.Prelude.{◌≡◌, ◌+◌, ◌≤◌, length};
ghost use Rattle.lists.specs.Window.{window, splice};
ghost use Rattle.checks.specs.First.{first};
ghost use Rattle.combination.specs.Combination.{combination_start};
ghost use Rattle.combination.specs.Call.{ends, cleared};
ghost use Rattle.taylor_schedule.specs.Inner.{matrix_of};
ghost use Rattle.krylov_advance.specs.Memory.{end_at};
ghost use Rattle.krylov_job.specs.KrylovCall.{after_run};
ghost use Rattle.krylov_job.specs.Memory.{layout};
ghost use Rattle.krylov_job.specs.Inner.{answer_of, Allowed, run_of};

use checks::Refusal;
use general_operator::CsrMatrix;
use krylov_advance::{KrylovPhiReport, RunAnswer};
use krylov_job::RunJob;
use phi_action_helpers::AugmentedOperator;

// The first field from place `at` of the lent memory on; w_0 is the first n values of w.
pub fn start_in(n: usize, w: &[f64], d: usize, inv: f64, work: &mut [f64], at: usize)
    requires { (n ≤ length w.now) × (at + (n + d) ≤ length work.old) }
    ensures { work.new ≡ splice at (combination_start n w.now d inv) work.old }
{
    let to = at + (n + d);
    start_vectors::combination_start(n, w, d, inv, &mut work[at..to]);
}

fn answer_of(end: RunAnswer) -> Result<KrylovPhiReport, Refusal>
    ensures { result ≡ answer_of end }
{
    match end {
        RunAnswer::Finished(_, report) => Ok(report),
        RunAnswer::Refused(e, _, _) => Err(e),
    }
}

// The field's n values; what was needed is cleared.
fn hand_out(out: &mut [f64], work: &mut [f64], y: usize, n: usize, need: usize)
    requires { (n ≤ length out.old) × (y + n ≤ length work.old) × (need ≤ length work.old) }
    ensures out_after { out.new ≡ splice 0 (window y n work.old) out.old }
    ensures work_after { work.new ≡ cleared need work.old }
{
    vectors::copy_from(out, 0, work, y, n);
    vectors::clear_in(work, 0, need);
}

// The substeps of a run whose first field stands at k.y, over the quotients where there is a mass.
fn run_expv(
    starts: &[u32],
    cols: &[u32],
    vals: &[f64],
    mass: &[f64],
    vectors: &[f64],
    work: &mut [f64],
    j: RunJob,
) -> RunAnswer
    requires { Allowed starts.now cols.now vals.now mass.now j (length vectors.now) (length work.old) }
    ensures work_after { end_at (layout j.g.n j.d j.k.m j.g.with_mass) j.k result work.new ≡ run_of j (matrix_of j.g starts.now cols.now vals.now mass.now) vectors.now (window j.k.y (j.g.n + j.d) work.old) }
    ensures work_unchanged { cleared j.need work.new ≡ cleared j.need work.old }
{
    let l = krylov_job::layout(j.g.n, j.d, j.k.m, j.g.with_mass);
    let q = CsrMatrix {
        n: j.g.n,
        starts,
        cols,
        vals,
    };
    stored_quotients::store_quotients(q, j.g.with_mass, mass, work, l.q);
    let o = AugmentedOperator {
        starts,
        cols,
        vals,
        vectors,
        l,
        b: j.b,
    };
    expv::expv(o, work, j.k, j.limit)
}

// A run whose first field stands at k.y, and what it hands out.
pub fn run_job(
    starts: &[u32],
    cols: &[u32],
    vals: &[f64],
    mass: &[f64],
    vectors: &[f64],
    out: &mut [f64],
    work: &mut [f64],
    j: RunJob,
) -> Result<KrylovPhiReport, Refusal>
    requires allowed { Allowed starts.now cols.now vals.now mass.now j (length vectors.now) (length work.old) }
    requires out_len { length out.old ≡ j.g.n }
    ensures { ends result out.new work.new ≡ after_run j.g.n j.need work.old (run_of j (matrix_of j.g starts.now cols.now vals.now mass.now) vectors.now (window j.k.y (j.g.n + j.d) work.old)) }
{
    let end = run_expv(starts, cols, vals, mass, vectors, work, j);
    hand_out(out, work, j.k.y, j.g.n, j.need);
    answer_of(end)
}
