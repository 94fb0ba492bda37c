// The four calls as one, for the exports on bytes: which call, and what it tells by value.
#![tactic(auto)]

ghost use Rattle.std.specs.Prelude.{◌≡◌};
ghost use Rattle.answers.specs.Told.{numbers, run_numbers, taylor_numbers, krylov_numbers};
ghost use Rattle.byte_arrays.specs.Inner.{lengths_told};
ghost use Rattle.byte_calls.specs.Inner.{taylor_told, krylov_told, revalued};

use checks::Refusal;
use krylov_advance::KrylovPhiReport;
use taylor_job::TaylorReport;

// Which call; of Taylor with the highest degree, of Krylov with tol, m and max_substeps.
#[derive(Clone, Copy)]
pub enum PhiCall {
    Combination(u32),
    Action(u32),
    Batch(u32),
    Krylov(f64, usize, usize),
}

// What is handed back as numbers: the counts of a Taylor call, or those of a Krylov call.
#[derive(Clone, Copy, Default)]
pub struct Told {
    pub number: u32,
    pub value: f64,
    pub s: u32,
    pub m: u32,
    pub applications: u64,
    pub substeps: usize,
    pub matvecs: usize,
    pub rejected: usize,
    pub shortest: f64,
    pub last: f64,
}

pub fn of_taylor(answer: Result<TaylorReport, Refusal>) -> Told
    ensures { taylor_told result ≡ taylor_numbers answer }
{
    match answer {
        Err(r) => Told {
            number: r.reason.number(),
            value: r.value,
            ..Told::default()
        },
        Ok(r) => Told {
            value: r.mu,
            s: r.s,
            m: r.m,
            applications: r.applications,
            ..Told::default()
        },
    }
}

pub fn of_krylov(answer: Result<KrylovPhiReport, Refusal>) -> Told
    ensures { krylov_told result ≡ krylov_numbers answer }
{
    match answer {
        Err(r) => Told {
            number: r.reason.number(),
            value: r.value,
            ..Told::default()
        },
        Ok(r) => Told {
            value: r.est_error,
            substeps: r.substeps,
            matvecs: r.matvecs,
            rejected: r.rejected,
            shortest: r.shortest,
            last: r.last,
            ..Told::default()
        },
    }
}

// The lengths handed in, where a refusal reports them.
pub fn reported(t: Told, starts: usize, mass: usize, out: usize, v: usize) -> Told
    ensures { result ≡ revalued t (lengths_told starts mass out v t.number t.value) }
{
    Told {
        value: byte_arrays::reported(t.number, t.value, starts, mass, out, v),
        ..t
    }
}

pub fn taylor_numbers(
    t: Told,
    value: &mut f64,
    s: &mut u32,
    m: &mut u32,
    applications: &mut u64,
) -> u32
    ensures { numbers result value.new s.new m.new applications.new ≡ taylor_told t }
{
    *value = t.value;
    *s = t.s;
    *m = t.m;
    *applications = t.applications;
    t.number
}

pub fn krylov_numbers(
    t: Told,
    value: &mut f64,
    substeps: &mut usize,
    matvecs: &mut usize,
    rejected: &mut usize,
    shortest: &mut f64,
    last: &mut f64,
) -> u32
    ensures { run_numbers result value.new substeps.new matvecs.new rejected.new shortest.new last.new ≡ krylov_told t }
{
    *value = t.value;
    *substeps = t.substeps;
    *matvecs = t.matvecs;
    *rejected = t.rejected;
    *shortest = t.shortest;
    *last = t.last;
    t.number
}
