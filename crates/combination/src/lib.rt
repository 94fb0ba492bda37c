// The checks of a job, one by one.
#![tactic(auto)]

ghost use Rattle.std.specs.Prelude.{◌≡◌, List, ◌++◌, ◌+◌, ◌||◌, eqb, ltb};
ghost use Rattle.checks.specs.First.{Check, first};
ghost use Rattle.expmv.specs.Select.{M_MAX};
ghost use Rattle.combination.specs.Checks.{count_checks, index_checks, out_of_range, time_checks, degree_checks, plan_checks, memory_checks};

use checks::{Checked, Reason, Refusal};

fn wrong_count(count: usize) -> bool
    ensures { result ≡ (eqb count 0 || ltb 4 count) }
{
    count == 0 || count > 4
}

// 12.
pub fn check_count(count: usize) -> Checked
    ensures { result ≡ first (count_checks count) }
{
    if wrong_count(count) {
        return Err(Refusal {
            reason: Reason::VectorCount,
            value: float::count(count),
        });
    }
    Ok(())
}

// 13.
pub fn check_index(k: usize) -> Checked
    ensures { result ≡ first (index_checks k) }
{
    if k > 3 {
        return Err(Refusal {
            reason: Reason::IndexRange,
            value: float::count(k),
        });
    }
    Ok(())
}

fn out_of_range(x: f64) -> bool
    ensures { result ≡ out_of_range x }
{
    if float::is_finite(x) {
        return x < 0.0;
    }
    true
}

// 14.
pub fn check_time(tau: f64) -> Checked
    ensures { result ≡ first (time_checks tau) }
{
    if out_of_range(tau) {
        return Err(Refusal {
            reason: Reason::TauRange,
            value: tau,
        });
    }
    Ok(())
}

fn wrong_degree(cap: u32) -> bool
    ensures { result ≡ (eqb cap 0 || ltb M_MAX cap) }
{
    cap == 0 || cap > expmv::M_MAX
}

// 33.
fn check_degree(cap: u32) -> Checked
    ensures { result ≡ first (degree_checks cap) }
{
    if wrong_degree(cap) {
        return Err(Refusal {
            reason: Reason::DegreeRange,
            value: float::not_a_number(),
        });
    }
    Ok(())
}

// 14 and 33 of a Taylor job.
pub fn check_plan(tau: f64, cap: u32) -> Checked
    ensures { result ≡ first (plan_checks tau cap) }
{
    check_time(tau)?;
    check_degree(cap)
}

// 26.
pub fn check_memory(memory: usize, need: usize) -> Checked
    ensures { result ≡ first (memory_checks memory need) }
{
    if memory < need {
        return Err(Refusal {
            reason: Reason::WorkLength,
            value: float::not_a_number(),
        });
    }
    Ok(())
}

// The first of two answers in a row that refuses.
pub fn and_then(a: Checked, b: Checked) -> Checked
    ensures { (xs ys : List Check) → a ≡ first xs → b ≡ first ys → result ≡ first (xs ++ ys) }
{
    a?;
    b
}
