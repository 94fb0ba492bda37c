// The checks of a combination's vectors: how many, their lengths, and that each value is finite.
#![tactic(auto)]

ghost use Rattle.std.specs.Prelude.{◌≡◌, List, ◌++◌, ◌+◌, ◌*◌, ◌≤◌, length};
ghost use Rattle.lists.specs.Positions.{IsPosition};
ghost use Rattle.checks.specs.First.{Check, first};
ghost use Rattle.combination.specs.Combination.{field_of};
ghost use Rattle.combination.specs.Checks.{length_checks, not_finite_at, finite_checks, vector_checks_by};

use checks::{Checked, Reason, Refusal};

// 15 and 16.
pub fn check_lengths(output: usize, wanted: usize, vectors: usize, expected: usize) -> Checked
    ensures { result ≡ first (length_checks output wanted vectors expected) }
{
    if output != wanted {
        return Err(Refusal {
            reason: Reason::OutputLength,
            value: float::count(output),
        });
    }
    if vectors != expected {
        return Err(Refusal {
            reason: Reason::VectorLength,
            value: float::count(vectors),
        });
    }
    Ok(())
}

#[tactic(auto, unfolding(combination::specs::Checks::not_finite_at))]
fn first_not_finite(w: &[f64]) -> Option<usize>
    ensures { IsPosition (not_finite_at w.now) (length w.now) result }
{
    w.iter().position(|x| !float::is_finite(*x))
}

// 17.
pub fn check_finite(w: &[f64]) -> Checked
    ensures { result ≡ first (finite_checks w.now) }
{
    if let Some(i) = first_not_finite(w) {
        return Err(Refusal {
            reason: Reason::VectorNotFinite,
            value: w[i],
        });
    }
    Ok(())
}

// w_0: the first field, or what the call before left in the output.
pub fn field_of<'a>(initial: bool, field: &'a [f64], out: &'a [f64]) -> &'a [f64]
    ensures { result.now ≡ field_of initial field.now out.now }
{
    if initial { field } else { out }
}

// 12 to 17 of a combination; `time` is the answer of what stands between 12 and 15, `others` of what stands between 16 and 17.
pub fn validate_combination(
    n: usize,
    time: Checked,
    count: usize,
    w: &[f64],
    output: usize,
    others: Checked,
) -> Checked
    requires { n ≤ 1000000 }
    ensures { (ts os : List Check) → time ≡ first ts → others ≡ first os → result ≡ first (vector_checks_by ts (length_checks output n (length w.now) (count * n) ++ os) count w.now) }
{
    combination::check_count(count)?;
    time?;
    check_lengths(output, n, w.len(), count * n)?;
    others?;
    check_finite(w)
}
