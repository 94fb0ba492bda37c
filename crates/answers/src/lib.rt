// Answers as the numbers that an exported function hands back, and solvers from the numbers handed in.
#![tactic(auto)]

ghost use Rattle.std.specs.Prelude.{◌≡◌};
ghost use Rattle.answers.specs.Told.{numbers, matrix_numbers, join_numbers, taylor_numbers, krylov_numbers, phi_numbers, run_numbers, options, solver};

use checks::Refusal;
use generator_action::Largest;
use krylov_advance::KrylovPhiReport;
use krylov_job::KrylovPhiOptions;
use phi_solver::{PhiReport, PhiSolver};
use taylor_job::TaylorReport;

// The result is 0 or the refusal's number; `value` is the norm or the refusal's double.
pub fn matrix_numbers(answer: Result<Largest, Refusal>, value: &mut f64, row: &mut usize) -> u32
    ensures { numbers result value.new row.new 0 0 ≡ matrix_numbers answer }
{
    match answer {
        Err(r) => {
            *value = r.value;
            *row = 0;
            r.reason.number()
        }
        Ok(largest) => {
            *value = largest.norm;
            *row = largest.row;
            0
        }
    }
}

// The result is 0 or the refusal's number; `value` is 0 or the refusal's double.
pub fn join_numbers(answer: Result<usize, Refusal>, value: &mut f64, entries: &mut usize) -> u32
    ensures { numbers result value.new entries.new 0 0 ≡ join_numbers answer }
{
    match answer {
        Err(r) => {
            *value = r.value;
            *entries = 0;
            r.reason.number()
        }
        Ok(count) => {
            *value = 0.0;
            *entries = count;
            0
        }
    }
}

// The result is 0 or the refusal's number; `value` is mu or the refusal's double.
pub fn taylor_numbers(
    answer: Result<TaylorReport, Refusal>,
    value: &mut f64,
    s: &mut u32,
    m: &mut u32,
    applications: &mut u64,
) -> u32
    ensures { numbers result value.new s.new m.new applications.new ≡ taylor_numbers answer }
{
    match answer {
        Err(r) => {
            *value = r.value;
            *s = 0;
            *m = 0;
            *applications = 0;
            r.reason.number()
        }
        Ok(report) => {
            *value = report.mu;
            *s = report.s;
            *m = report.m;
            *applications = report.applications;
            0
        }
    }
}

// The result is 0 or the refusal's number; `value` is the estimate or the refusal's double. A refusal has the counts and steps 0.
pub fn krylov_numbers(
    answer: Result<KrylovPhiReport, Refusal>,
    value: &mut f64,
    substeps: &mut usize,
    matvecs: &mut usize,
    rejected: &mut usize,
    shortest: &mut f64,
    last: &mut f64,
) -> u32
    ensures { run_numbers result value.new substeps.new matvecs.new rejected.new shortest.new last.new ≡ krylov_numbers answer }
{
    match answer {
        Err(r) => {
            *value = r.value;
            *substeps = 0;
            *matvecs = 0;
            *rejected = 0;
            *shortest = 0.0;
            *last = 0.0;
            r.reason.number()
        }
        Ok(report) => {
            *value = report.est_error;
            *substeps = report.substeps;
            *matvecs = report.matvecs;
            *rejected = report.rejected;
            *shortest = report.shortest;
            *last = report.last;
            0
        }
    }
}

// The result is 0 or the refusal's number; `value` and the counts are told as of the evaluator used.
pub fn phi_numbers(
    answer: Result<PhiReport, Refusal>,
    value: &mut f64,
    first: &mut u64,
    second: &mut u64,
    third: &mut u64,
    shortest: &mut f64,
    last: &mut f64,
) -> u32
    ensures { run_numbers result value.new first.new second.new third.new shortest.new last.new ≡ phi_numbers answer }
{
    match answer {
        Err(r) => {
            *value = r.value;
            *first = 0;
            *second = 0;
            *third = 0;
            *shortest = 0.0;
            *last = 0.0;
            r.reason.number()
        }
        Ok(report) => match report {
            PhiReport::Taylor(report) => {
                *value = report.mu;
                *first = report.s as u64;
                *second = report.m as u64;
                *third = report.applications;
                *shortest = 0.0;
                *last = 0.0;
                0
            }
            PhiReport::Krylov(report) => {
                *value = report.est_error;
                *first = report.substeps as u64;
                *second = report.matvecs as u64;
                *third = report.rejected as u64;
                *shortest = report.shortest;
                *last = report.last;
                0
            }
        },
    }
}

pub fn options(tol: f64, m: usize, max_substeps: usize) -> KrylovPhiOptions
    ensures { result ≡ options tol m max_substeps }
{
    KrylovPhiOptions {
        tol,
        m,
        max_substeps,
    }
}

pub fn solver(krylov: bool, degree: u32, o: KrylovPhiOptions) -> PhiSolver
    ensures { result ≡ solver krylov degree o }
{
    if krylov {
        return PhiSolver::Krylov(o);
    }
    PhiSolver::Taylor(degree)
}
