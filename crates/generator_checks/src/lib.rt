// The checks 7 to 11: the mass, the row sums, the norm and the first row that has it. Rows are gone through by their number, which is part of the answer.
#![tactic(auto)]

ghost use Rattle.std.specs.Prelude.{◌≡◌, cond, List, ℕ, ◌+◌, ◌-◌, ◌<◌, length, fold, Float};
ghost use Rattle.lists.specs.Positions.{IsPosition};
ghost use Rattle.doubles.specs.F64.{◌⊕◌, ◌⊘◌, ◌⋖◌, +0, at, abs};
ghost use Rattle.checks.specs.First.{first};
ghost use Rattle.general_operator.specs.Csr.{csr, Valid};
ghost use Rattle.generator_action.specs.Mass.{given, normalise, stored, bad_mass, mass_checks, sum_checks, norm_checks};
ghost use Rattle.generator_action.specs.Answer.{matrix_answer};
ghost use Rattle.generator_action.specs.Known.{Finite, Dividing, Answered};

use checks::{Checked, Reason, Refusal};
use generator_action::Largest;

#[tactic(auto, unfolding(generator_action::specs::Mass::bad_mass))]
fn is_bad_mass(x: f64) -> bool
    ensures { result ≡ bad_mass x }
{
    !float::is_finite(x) || x <= 0.0
}

// The first mass that 8 refuses.
fn first_bad_mass(mass: &[f64]) -> Option<usize>
    ensures { IsPosition (λ i. bad_mass (at mass.now i)) (length mass.now) result }
{
    mass.iter().position(|m| is_bad_mass(*m))
}

// 7 to 9, which do not depend on the columns and the entries.
pub fn check_mass(n: usize, starts: &[u32], mass: &[f64]) -> Checked
    requires { 0 < length starts.now }
    ensures { (columns : List ℕ) (entries : List Float) → result ≡ first (mass_checks (csr n starts.now columns entries) mass.now) }
{
    if mass.len() != n {
        return Err(Refusal {
            reason: Reason::MassLength,
            value: float::count(mass.len()),
        });
    }
    if let Some(i) = first_bad_mass(mass) {
        return Err(Refusal {
            reason: Reason::MassRange,
            value: mass[i],
        });
    }
    if starts[0] != 0 {
        return Err(Refusal {
            reason: Reason::FirstRowStart,
            value: float::not_a_number(),
        });
    }
    Ok(())
}

// The sum of the sizes of a row's entries.
fn size_sum(row: &[f64]) -> f64
    ensures { result ≡ fold (λ s x. s ⊕ abs x) +0 row.now }
{
    row.iter().fold(0.0, |s, x| s + float::abs(*x))
}

// The same, each entry divided by m.
fn quotient_sum(row: &[f64], m: f64) -> f64
    ensures { result ≡ fold (λ s x. s ⊕ abs (x ⊘ m)) +0 row.now }
{
    row.iter().fold(0.0, |s, x| s + float::abs(*x / m))
}

// After row i, whose sum is s.
fn larger(l: Largest, s: f64, i: usize) -> Largest
    ensures { (result.norm ≡ cond (l.norm ⋖ s) s l.norm) × (result.row ≡ cond (l.norm ⋖ s) i l.row) }
{
    if s > l.norm {
        return Largest { norm: s, row: i };
    }
    l
}

// 11, and the norm of a matrix that has no mass.
pub fn entry_norm(n: usize, starts: &[u32], cols: &[u32], vals: &[f64]) -> Result<Largest, Refusal>
    requires valid { Valid (csr n starts.now cols.now vals.now) }
    requires finite { Finite (csr n starts.now cols.now vals.now) }
    ensures { Answered (csr n starts.now cols.now vals.now) (norm_checks (csr n starts.now cols.now vals.now)) result }
{
    let mut best = Largest { norm: 0.0, row: 0 };
    for row in 0..n {
        let from = starts[row] as usize;
        let to = starts[row + 1] as usize;
        let s = size_sum(&vals[from..to]);
        best = larger(best, s, row);
    }
    if !float::is_finite(best.norm) {
        return Err(Refusal {
            reason: Reason::NormNotFinite,
            value: best.norm,
        });
    }
    Ok(best)
}

// 10, and the norm of the quotients, which are not stored.
pub fn quotient_norm(
    n: usize,
    starts: &[u32],
    cols: &[u32],
    vals: &[f64],
    mass: &[f64],
) -> Result<Largest, Refusal>
    requires valid { Valid (csr n starts.now cols.now vals.now) }
    requires finite { Finite (csr n starts.now cols.now vals.now) }
    requires dividing { Dividing (csr n starts.now cols.now vals.now) mass.now }
    ensures { Answered (normalise (csr n starts.now cols.now vals.now) mass.now) (sum_checks (normalise (csr n starts.now cols.now vals.now) mass.now)) result }
{
    let mut largest = Largest { norm: 0.0, row: 0 };
    for i in 0..n {
        let from = starts[i] as usize;
        let to = starts[i + 1] as usize;
        let s = quotient_sum(&vals[from..to], mass[i]);
        if !float::is_finite(s) {
            return Err(Refusal {
                reason: Reason::RowSumNotFinite,
                value: s,
            });
        }
        largest = larger(largest, s, i);
    }
    Ok(largest)
}

// 1 to 11, on any input; then the norm of Q, and the first row whose sum it is.
pub fn check_generator(
    n: usize,
    starts: &[u32],
    cols: &[u32],
    vals: &[f64],
    with_mass: bool,
    mass: &[f64],
) -> Result<Largest, Refusal>
    ensures { result ≡ matrix_answer (csr n starts.now cols.now vals.now) (given with_mass mass.now) }
{
    general_operator::validate_csr(n, starts, cols, vals)?;
    if with_mass {
        check_mass(n, starts, mass)?;
        return quotient_norm(n, starts, cols, vals, mass);
    }
    entry_norm(n, starts, cols, vals)
}
