// Up to sixteen paused runs on one unit, in rotation, one substep at a time: the places and the queue.
#![tactic(auto)]

ghost use Rattle.std.specs.Prelude.{◌≡◌, ◌-◌, ◌≤◌, ◌<◌, leb, position};
ghost use Rattle.paused_run.specs.declared.PausedRun.{PausedRun};
ghost use Rattle.rotation.specs.Unit.{vacant, empty, waiting, next_place, lowest_free, room};
ghost use Rattle.rotation.specs.Inner.{count_of, shifted, run_in_place, seat_of, end_of, passed_of};

use krylov_advance::KrylovPhiReport;
use paused_run::PausedRun;
use pow2::Scale;

// The runs in places 0 to 15, a place being free while the run in it has ended; and the places that wait, in the order of their turns, up to the first
// number above 15.
#[derive(Clone, Copy)]
pub struct Rotation {
    pub places: [PausedRun; 16],
    pub queue: [usize; 16],
}

// The unit with a new run, and the place taken (16: none).
#[derive(Clone, Copy)]
pub struct Seat {
    pub unit: Rotation,
    pub place: usize,
}

// A place that was never taken.
pub fn vacant() -> PausedRun
    ensures { result ≡ vacant }
{
    PausedRun {
        time: 0.0,
        next: 0.0,
        report: KrylovPhiReport {
            matvecs: 0,
            substeps: 0,
            rejected: 0,
            est_error: 0.0,
            shortest: 0.0,
            last: 0.0,
        },
        eta: 1.0,
        factors: Scale { down: 1.0, up: 1.0 },
        norm: 0.0,
        tol: 0.0,
        m: 0,
        limit: 0,
        n: 0,
        count: 0,
        ended: true,
    }
}

pub fn empty() -> Rotation
    ensures { result ≡ empty }
{
    Rotation {
        places: [vacant(); 16],
        queue: [16; 16],
    }
}

// The first number in a queue that is no place.
fn queue_end(queue: &[usize]) -> Option<usize>
    ensures { result ≡ position (λ p. leb 16 p) queue.now }
{
    queue.iter().position(|p| *p >= 16)
}

// How many places wait.
fn count_in(queue: [usize; 16]) -> usize
    ensures { result ≡ count_of queue }
{
    queue_end(&queue).unwrap_or(16)
}

// The place whose turn is next, 16 if no run waits.
pub fn next_place(unit: Rotation) -> usize
    ensures { result ≡ next_place unit }
{
    unit.queue[0].min(16)
}

// The run in a place; beyond the last that of a place never taken.
pub fn run_at(unit: Rotation, p: usize) -> PausedRun
    ensures { result ≡ run_in_place unit p }
{
    if p < 16 {
        return unit.places[p];
    }
    vacant()
}

// The first run that has ended.
fn first_ended(runs: &[PausedRun]) -> Option<usize>
    ensures { result ≡ position (λ (run : PausedRun). run.ended) runs.now }
{
    runs.iter().position(|run| run.ended)
}

// The lowest place whose run has ended, 16 if there is none.
fn lowest_free(unit: Rotation) -> usize
    ensures { result ≡ lowest_free unit }
{
    first_ended(&unit.places).unwrap_or(16)
}

// Whether one more run can be taken.
pub fn room(unit: Rotation) -> bool
    ensures { result ≡ room unit }
{
    lowest_free(unit) < 16 && count_in(unit.queue) < 16
}

// A queue's numbers in `from..to`, then `last` (16: none), then none.
fn shifted(queue: [usize; 16], from: usize, to: usize, last: usize) -> [usize; 16]
    requires { (from ≤ to) × (to ≤ 16) × (to - from < 16) }
    ensures { result ≡ shifted queue from to last }
{
    let n = to - from;
    let mut moved = [16; 16];
    moved[..n].copy_from_slice(&queue[from..to]);
    moved[n] = last;
    moved
}

// A new run behind those that wait, in the lowest free place; where there is no room the unit stays as it is.
pub fn seated(unit: Rotation, run: PausedRun) -> Seat
    ensures { result ≡ seat_of unit run }
{
    if room(unit) {
        let p = lowest_free(unit);
        let mut places = unit.places;
        places[p] = run;
        return Seat {
            unit: Rotation {
                places,
                queue: shifted(unit.queue, 0, count_in(unit.queue), p),
            },
            place: p,
        };
    }
    Seat { unit, place: 16 }
}

// What a place whose turn is over puts at the end: 16 where its run has ended.
fn end_of(p: usize, ended: bool) -> usize
    ensures { result ≡ end_of p ended }
{
    if ended {
        return 16;
    }
    p
}

// The run whose turn was next after that turn: it leaves or goes to the end.
pub fn passed_on(unit: Rotation, run: PausedRun) -> Rotation
    ensures { result ≡ passed_of unit (waiting unit) run }
{
    let k = count_in(unit.queue);
    if k == 0 {
        return unit;
    }
    let p = unit.queue[0];
    let mut places = unit.places;
    places[p] = run;
    Rotation {
        places,
        queue: shifted(unit.queue, 1, k, end_of(p, run.ended)),
    }
}
