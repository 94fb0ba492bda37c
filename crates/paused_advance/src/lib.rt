// One substep of a paused run, on its own field.
#![tactic(auto)]

ghost use Rattle.std.specs.Prelude.{◌≡◌, ◌+◌, ◌≤◌, length};
ghost use Rattle.combination.specs.Call.{cleared};
ghost use Rattle.taylor_schedule.specs.Inner.{matrix_of};
ghost use Rattle.krylov_advance.specs.Run.{substep};
ghost use Rattle.krylov_job.specs.Inner.{Allowed};
ghost use Rattle.paused_run.specs.Paused.{leaves, resumed, verdict};
ghost use Rattle.paused_run.specs.Inner.{setting_for, turned, after_of};

use general_operator::CsrMatrix;
use gram_schmidt::Krylov;
use krylov_advance::{Control, Progress};
use krylov_job::RunJob;
use paused_run::{PausedRun, StepRefusal};
use phi_action_helpers::AugmentedOperator;

// One substep from the lent field, which it replaces.
fn substep_on(
    run: PausedRun,
    starts: &[u32],
    cols: &[u32],
    vals: &[f64],
    mass: &[f64],
    vectors: &[f64],
    work: &mut [f64],
    field: &mut [f64],
    j: RunJob,
) -> Progress
    requires allowed { Allowed starts.now cols.now vals.now mass.now j (length vectors.now) (length work.old) }
    requires field_len { (length field.old ≡ j.g.n + j.d) × (run.report.substeps ≤ 1000000) × (run.report.matvecs ≤ 1000000000) × (run.report.rejected ≤ 1000000000) }
    ensures field_after { turned result field.new ≡ substep (setting_for j (matrix_of j.g starts.now cols.now vals.now mass.now) vectors.now run.norm) (resumed run field.old) }
    ensures work_unchanged { (cleared j.need work.new ≡ cleared j.need work.old) × (length work.new ≡ length work.old) × (length field.new ≡ length field.old) }
{
    let len = j.g.n + j.d;
    let l = krylov_job::layout(j.g.n, j.d, j.k.m, j.g.with_mass);
    vectors::copy_from(work, j.k.y, field, 0, len);
    let q = CsrMatrix {
        n: j.g.n,
        starts,
        cols,
        vals,
    };
    stored_quotients::store_quotients(q, j.g.with_mass, mass, work, l.q);
    let k = Krylov {
        tol: j.k.tol * run.norm,
        ..j.k
    };
    let c = Control {
        time: run.time,
        next: run.next,
        beta: gram_schmidt::norm2(field),
    };
    let o = AugmentedOperator {
        starts,
        cols,
        vals,
        vectors,
        l,
        b: j.b,
    };
    let progress = phi_krylov_arnoldi::substep(o, work, k, c, run.report);
    vectors::copy_from(field, 0, work, j.k.y, len);
    progress
}

// A job that passed: one substep, and what it hands out.
pub fn advance(
    run: PausedRun,
    tol: f64,
    starts: &[u32],
    cols: &[u32],
    vals: &[f64],
    mass: &[f64],
    vectors: &[f64],
    out: &mut [f64],
    work: &mut [f64],
    field: &mut [f64],
    j: RunJob,
) -> Result<PausedRun, StepRefusal>
    requires allowed { Allowed starts.now cols.now vals.now mass.now j (length vectors.now) (length work.old) }
    requires field_len { (length field.old ≡ j.g.n + j.d) × (run.report.substeps ≤ 1000000) × (run.report.matvecs ≤ 1000000000) × (run.report.rejected ≤ 1000000000) }
    requires out_len { length out.old ≡ j.g.n }
    ensures { leaves result out.new work.new field.new ≡ after_of run tol j work.old (substep (setting_for j (matrix_of j.g starts.now cols.now vals.now mass.now) vectors.now run.norm) (resumed run field.old)) }
{
    let o = substep_on(run, starts, cols, vals, mass, vectors, work, field, j);
    paused_run::hand_out(out, field, run.factors.up);
    vectors::clear_in(work, 0, j.need);
    paused_run::verdict(run, tol, o)
}
