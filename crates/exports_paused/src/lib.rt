// Paused runs for programs in other languages, straight on slices: a run crosses as ten doubles and eight numbers.
#![tactic(auto)]

ghost use Rattle.std.specs.Prelude.{◌≡◌, ℕ, zero, length, Float, if◌then◌else◌};
ghost use Rattle.general_operator.specs.Csr.{csr};
ghost use Rattle.generator_action.specs.Mass.{given};
ghost use Rattle.generator_action.specs.Generator.{forward};
ghost use Rattle.answers.specs.Told.{options};
ghost use Rattle.exports_paused.specs.Told.{numbers_of, flag, counts_of, fits, held, no_run, run_of, state, written, start_state, ran, step_state, told, start_told, tolerance, step_told};

use checks::Refusal;
use krylov_advance::KrylovPhiReport;
use paused_run::{PausedRun, StepRefusal};
use pow2::Scale;

// Whether the slices of a state have its lengths.
fn fits(numbers: &[f64], counts: &[usize]) -> bool
    ensures { result ≡ fits numbers.now counts.now }
{
    numbers.len() == 10 && counts.len() == 8
}

// The run that they hold.
fn held(numbers: &[f64], counts: &[usize]) -> PausedRun
    requires { (length numbers.now ≡ 10) × (length counts.now ≡ 8) }
    ensures { result ≡ held numbers.now counts.now }
{
    PausedRun {
        time: numbers[0],
        next: numbers[1],
        report: KrylovPhiReport {
            matvecs: counts[0],
            substeps: counts[1],
            rejected: counts[2],
            est_error: numbers[2],
            shortest: numbers[3],
            last: numbers[4],
        },
        eta: numbers[5],
        factors: Scale {
            down: numbers[6],
            up: numbers[7],
        },
        norm: numbers[8],
        tol: numbers[9],
        m: counts[3],
        limit: counts[4],
        n: counts[5],
        count: counts[6],
        ended: counts[7] != 0,
    }
}

// A run that no call left.
fn no_run() -> PausedRun
    ensures { result ≡ no_run }
{
    PausedRun {
        time: 0.0,
        next: 0.0,
        report: KrylovPhiReport {
            matvecs: 0,
            substeps: 0,
            rejected: 0,
            est_error: 0.0,
            shortest: 0.0,
            last: 0.0,
        },
        eta: 1.0,
        factors: Scale { down: 1.0, up: 1.0 },
        norm: 0.0,
        tol: 0.0,
        m: 0,
        limit: 0,
        n: 0,
        count: 0,
        ended: true,
    }
}

pub fn read_run(numbers: &[f64], counts: &[usize]) -> PausedRun
    ensures { result ≡ run_of numbers.now counts.now }
{
    if fits(numbers, counts) {
        return held(numbers, counts);
    }
    no_run()
}

fn write_numbers(run: PausedRun, numbers: &mut [f64])
    requires { length numbers.old ≡ 10 }
    ensures { numbers.new ≡ numbers_of run }
{
    numbers[0] = run.time;
    numbers[1] = run.next;
    numbers[2] = run.report.est_error;
    numbers[3] = run.report.shortest;
    numbers[4] = run.report.last;
    numbers[5] = run.eta;
    numbers[6] = run.factors.down;
    numbers[7] = run.factors.up;
    numbers[8] = run.norm;
    numbers[9] = run.tol;
}

fn flag(ended: bool) -> usize
    ensures { result ≡ flag ended }
{
    if ended {
        return 1;
    }
    0
}

fn write_counts(run: PausedRun, counts: &mut [usize])
    requires { length counts.old ≡ 8 }
    ensures { counts.new ≡ counts_of run }
{
    counts[0] = run.report.matvecs;
    counts[1] = run.report.substeps;
    counts[2] = run.report.rejected;
    counts[3] = run.m;
    counts[4] = run.limit;
    counts[5] = run.n;
    counts[6] = run.count;
    counts[7] = flag(run.ended);
}

// The run's state, to slices that fit it.
pub fn write_run(run: PausedRun, numbers: &mut [f64], counts: &mut [usize])
    ensures { (k : ℕ) (x : Float) → state k x numbers.new counts.new ≡ written k x run numbers.old counts.old }
{
    if fits(numbers, counts) {
        write_numbers(run, numbers);
        write_counts(run, counts);
    }
}

// The result is 0 or the refusal's number; `value` is the estimate or the refusal's double.
pub fn start_state(
    answer: Result<PausedRun, Refusal>,
    numbers: &mut [f64],
    counts: &mut [usize],
    value: &mut f64,
) -> u32
    ensures { state result value.new numbers.new counts.new ≡ start_state answer numbers.old counts.old }
{
    match answer {
        Err(r) => {
            *value = r.value;
            r.reason.number()
        }
        Ok(run) => {
            write_run(run, numbers, counts);
            *value = run.report.est_error;
            0
        }
    }
}

// Whether a refusal came with a substep.
fn ran(k: u32) -> bool
    ensures { result ≡ ran k }
{
    k > 26 && k < 30
}

// The same of a step; a refusal before the substep writes no state.
pub fn step_state(
    answer: Result<PausedRun, StepRefusal>,
    numbers: &mut [f64],
    counts: &mut [usize],
    value: &mut f64,
) -> u32
    ensures { state result value.new numbers.new counts.new ≡ step_state answer numbers.old counts.old }
{
    match answer {
        Err(r) => {
            let k = r.refusal.reason.number();
            *value = r.refusal.value;
            if ran(k) {
                write_run(r.run, numbers, counts);
            }
            k
        }
        Ok(run) => {
            write_run(run, numbers, counts);
            *value = run.report.est_error;
            0
        }
    }
}

// How much of the field is lent: nothing where the state has no place, so that 26 refuses.
pub fn field_end(numbers: &[f64], counts: &[usize], field: usize) -> usize
    ensures { result ≡ (if fits numbers.now counts.now then field else zero) }
{
    if fits(numbers, counts) {
        return field;
    }
    0
}

// `paused_start::start`, told by `start_state`.
pub fn hazhendu_krylov_start(
    n: usize,
    starts: &[u32],
    cols: &[u32],
    vals: &[f64],
    with_mass: bool,
    mass: &[f64],
    tau: f64,
    count: usize,
    w: &[f64],
    tol: f64,
    m: usize,
    max_substeps: usize,
    out: &mut [f64],
    work: &mut [f64],
    field: &mut [f64],
    numbers: &mut [f64],
    counts: &mut [usize],
    value: &mut f64,
) -> u32
    ensures { told (state result value.new numbers.new counts.new) out.new work.new field.new ≡ start_told (options tol m max_substeps) (record { g = forward (csr n starts.now cols.now vals.now) (given with_mass mass.now); tau = tau; count = count; w = w.now }) out.old work.old field.old numbers.old counts.old }
{
    let o = answers::options(tol, m, max_substeps);
    let to = field_end(numbers, counts, field.len());
    let answer = paused_start::start(
        n,
        starts,
        cols,
        vals,
        with_mass,
        mass,
        tau,
        count,
        w,
        o,
        out,
        work,
        &mut field[0..to],
    );
    start_state(answer, numbers, counts, value)
}

pub fn tolerance(with_tol: bool, tol: f64) -> Option<f64>
    ensures { result ≡ tolerance with_tol tol }
{
    with_tol.then_some(tol)
}

// `paused_step::step`, told by `step_state`.
pub fn hazhendu_krylov_step(
    n: usize,
    starts: &[u32],
    cols: &[u32],
    vals: &[f64],
    with_mass: bool,
    mass: &[f64],
    tau: f64,
    count: usize,
    w: &[f64],
    with_tol: bool,
    tol: f64,
    out: &mut [f64],
    work: &mut [f64],
    field: &mut [f64],
    numbers: &mut [f64],
    counts: &mut [usize],
    value: &mut f64,
) -> u32
    ensures { told (state result value.new numbers.new counts.new) out.new work.new field.new ≡ step_told (record { tolerance = tolerance with_tol tol; job = record { g = forward (csr n starts.now cols.now vals.now) (given with_mass mass.now); tau = tau; count = count; w = w.now }; output = out.old; memory = work.old }) field.old numbers.old counts.old }
{
    let run = read_run(numbers, counts);
    let t = tolerance(with_tol, tol);
    let answer = paused_step::step(
        run, t, n, starts, cols, vals, with_mass, mass, tau, count, w, out, work, field,
    );
    step_state(answer, numbers, counts, value)
}
