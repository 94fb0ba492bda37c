// Several barrels on one unit for programs in other languages, straight on slices: a unit crosses as 160 doubles and 144 numbers.
#![tactic(auto)]

ghost use Rattle.std.specs.Prelude.{◌≡◌, ◌&&◌, ◌*◌, ◌<◌, ltb, length, get_or};
ghost use Rattle.lists.specs.Loop.{tabulate, stack};
ghost use Rattle.lists.specs.Window.{window, splice};
ghost use Rattle.general_operator.specs.Csr.{csr};
ghost use Rattle.generator_action.specs.Mass.{given};
ghost use Rattle.generator_action.specs.Generator.{forward};
ghost use Rattle.rotation.specs.Unit.{unread, run_at};
ghost use Rattle.answers.specs.Told.{options};
ghost use Rattle.exports_paused.specs.Told.{numbers_of, counts_of, held, state, told, tolerance};
ghost use Rattle.exports_rotation.specs.Told.{unit_numbers, unit_counts, unit_fits, no_unit, unit_of, unit_told, kept_or, join_told, turn_told, next_told, cleared, clear_told};

use krylov_advance::KrylovPhiReport;
use paused_run::PausedRun;
use pow2::Scale;
use rotation::Rotation;
// Whether the slices of a unit have its lengths.
fn unit_fits(numbers: &[f64], counts: &[usize]) -> bool
    ensures { result ≡ unit_fits numbers.now counts.now }
{
    numbers.len() == 160 && counts.len() == 144
}

// The run that they hold in a place.
fn held_at(numbers: &[f64], counts: &[usize], p: usize) -> PausedRun
    requires { (p < 16) × (length numbers.now ≡ 160) × (length counts.now ≡ 144) }
    ensures { result ≡ held (window (10 * p) 10 numbers.now) (window (8 * p) 8 counts.now) }
{
    let a = 10 * p;
    let b = 8 * p;
    exports_paused::read_run(&numbers[a..a + 10], &counts[b..b + 8])
}

fn held_places(numbers: &[f64], counts: &[usize]) -> [PausedRun; 16]
    requires { (length numbers.now ≡ 160) × (length counts.now ≡ 144) }
    ensures { result ≡ tabulate 16 (λ p. held (window (10 * p) 10 numbers.now) (window (8 * p) 8 counts.now)) }
{
    let mut places = [rotation::vacant(); 16];
    for (p, place) in places.iter_mut().enumerate() {
        *place = held_at(numbers, counts, p);
    }
    places
}

fn held_queue(counts: &[usize]) -> [usize; 16]
    requires { length counts.now ≡ 144 }
    ensures { result ≡ window 128 16 counts.now }
{
    let mut queue = [16; 16];
    queue.copy_from_slice(&counts[128..144]);
    queue
}

// A place that neither waits nor is free.
fn unread() -> PausedRun
    ensures { result ≡ unread }
{
    let x = float::not_a_number();
    PausedRun {
        time: x,
        next: x,
        report: KrylovPhiReport {
            matvecs: 0,
            substeps: 0,
            rejected: 0,
            est_error: x,
            shortest: x,
            last: x,
        },
        eta: x,
        factors: Scale { down: x, up: x },
        norm: x,
        tol: x,
        m: 0,
        limit: 0,
        n: 0,
        count: 0,
        ended: false,
    }
}

fn no_unit() -> Rotation
    ensures { result ≡ no_unit }
{
    let run = unread();
    Rotation {
        places: [run; 16],
        queue: [16; 16],
    }
}

fn read_unit(numbers: &[f64], counts: &[usize]) -> Rotation
    ensures { result ≡ unit_of numbers.now counts.now }
{
    if unit_fits(numbers, counts) {
        return Rotation {
            places: held_places(numbers, counts),
            queue: held_queue(counts),
        };
    }
    no_unit()
}

fn write_at(run: PausedRun, p: usize, numbers: &mut [f64], counts: &mut [usize])
    requires { (p < 16) × (length numbers.old ≡ 160) × (length counts.old ≡ 144) }
    ensures numbers_after { numbers.new ≡ splice (p * 10) (numbers_of run) numbers.old }
    ensures counts_after { counts.new ≡ splice (p * 8) (counts_of run) counts.old }
{
    let a = p * 10;
    let b = p * 8;
    exports_paused::write_run(run, &mut numbers[a..a + 10], &mut counts[b..b + 8]);
}

fn write_places(unit: Rotation, numbers: &mut [f64], counts: &mut [usize])
    requires { (length numbers.old ≡ 160) × (length counts.old ≡ 144) }
    ensures numbers_after { numbers.new ≡ unit_numbers unit }
    ensures counts_after { counts.new ≡ splice 0 (stack 16 (λ p. counts_of (run_at unit p))) counts.old }
{
    for (p, run) in unit.places.iter().enumerate() {
        write_at(*run, p, numbers, counts);
    }
}

fn write_queue(queue: [usize; 16], counts: &mut [usize])
    requires { length counts.old ≡ 144 }
    ensures { counts.new ≡ splice 128 (tabulate 16 (λ k. get_or queue k 0)) counts.old }
{
    counts[128..144].copy_from_slice(&queue);
}

// A unit that took a run or had a turn, to slices that fit it.
fn keep_unit(unit: Rotation, place: usize, numbers: &mut [f64], counts: &mut [usize])
    ensures numbers_after { numbers.new ≡ kept_or (ltb place 16 && unit_fits numbers.old counts.old) (unit_numbers unit) numbers.old }
    ensures counts_after { counts.new ≡ kept_or (ltb place 16 && unit_fits numbers.old counts.old) (unit_counts unit) counts.old }
{
    if place < 16 {
        if unit_fits(numbers, counts) {
            let queue = unit.queue;
            write_places(unit, numbers, counts);
            write_queue(queue, counts);
        }
    }
}

// The empty unit: 0, or 26 where the slices do not fit it.
#[unsafe(no_mangle)]
pub extern "C" fn hazhendu_rotation_clear(units: &mut [f64], queues: &mut [usize]) -> u32
    ensures { cleared result units.new queues.new ≡ clear_told units.old queues.old }
{
    if unit_fits(units, queues) {
        let unit = rotation::empty();
        keep_unit(unit, 0, units, queues);
        return 0;
    }
    26
}

// The place whose turn is next, 16 if no run waits.
#[unsafe(no_mangle)]
pub extern "C" fn hazhendu_rotation_next(queues: &[usize]) -> usize
    ensures { result ≡ next_told queues.now }
{
    if queues.len() == 144 {
        let run = rotation::vacant();
        let unit = Rotation {
            places: [run; 16],
            queue: held_queue(queues),
        };
        return rotation::next_place(unit);
    }
    16
}

// `rotation_joins::join`, told by `exports_paused::start_state`; `place` is the place taken, 16 if none.
#[unsafe(no_mangle)]
pub extern "C" fn hazhendu_rotation_join(
    n: usize,
    starts: &[u32],
    cols: &[u32],
    vals: &[f64],
    with_mass: bool,
    mass: &[f64],
    tau: f64,
    count: usize,
    w: &[f64],
    tol: f64,
    m: usize,
    max_substeps: usize,
    out: &mut [f64],
    work: &mut [f64],
    field: &mut [f64],
    units: &mut [f64],
    queues: &mut [usize],
    numbers: &mut [f64],
    counts: &mut [usize],
    place: &mut usize,
    value: &mut f64,
) -> u32
    ensures { unit_told (told (state result value.new numbers.new counts.new) out.new work.new field.new) place.new units.new queues.new ≡ join_told (options tol m max_substeps) (record { g = forward (csr n starts.now cols.now vals.now) (given with_mass mass.now); tau = tau; count = count; w = w.now }) out.old work.old field.old units.old queues.old numbers.old counts.old }
{
    let o = answers::options(tol, m, max_substeps);
    let unit = read_unit(units, queues);
    let to = exports_paused::field_end(numbers, counts, field.len());
    let joined = rotation_joins::join(
        unit,
        n,
        starts,
        cols,
        vals,
        with_mass,
        mass,
        tau,
        count,
        w,
        o,
        out,
        work,
        &mut field[0..to],
    );
    let left = joined.unit;
    let answer = joined.answer;
    *place = joined.place;
    keep_unit(left, joined.place, units, queues);
    exports_paused::start_state(answer, numbers, counts, value)
}

// `rotation_turns::turn`, told by `exports_paused::step_state`; `place` is the place whose turn it was, 16 if none.
#[unsafe(no_mangle)]
pub extern "C" fn hazhendu_rotation_turn(
    n: usize,
    starts: &[u32],
    cols: &[u32],
    vals: &[f64],
    with_mass: bool,
    mass: &[f64],
    tau: f64,
    count: usize,
    w: &[f64],
    with_tol: bool,
    tol: f64,
    out: &mut [f64],
    work: &mut [f64],
    field: &mut [f64],
    units: &mut [f64],
    queues: &mut [usize],
    numbers: &mut [f64],
    counts: &mut [usize],
    place: &mut usize,
    value: &mut f64,
) -> u32
    ensures { unit_told (told (state result value.new numbers.new counts.new) out.new work.new field.new) place.new units.new queues.new ≡ turn_told (record { tolerance = tolerance with_tol tol; job = record { g = forward (csr n starts.now cols.now vals.now) (given with_mass mass.now); tau = tau; count = count; w = w.now }; output = out.old; memory = work.old }) field.old units.old queues.old numbers.old counts.old }
{
    let unit = read_unit(units, queues);
    let t = exports_paused::tolerance(with_tol, tol);
    let turned = rotation_turns::turn(
        unit, t, n, starts, cols, vals, with_mass, mass, tau, count, w, out, work, field,
    );
    let left = turned.unit;
    let answer = turned.answer;
    *place = turned.place;
    keep_unit(left, turned.place, units, queues);
    exports_paused::step_state(answer, numbers, counts, value)
}
