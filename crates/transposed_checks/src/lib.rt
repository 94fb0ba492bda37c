// The checks of a transposed generator: 1 to 11 of the forward one, 9 without a mass too, 30, and 11 of the column sums.
#![tactic(auto)]

ghost use Rattle.std.specs.Prelude.{◌≡◌, List, ◌++◌, ℕ, ◌+◌, ◌-◌, ◌<◌, length, Float};
ghost use Rattle.checks.specs.First.{first};
ghost use Rattle.general_operator.specs.Csr.{csr};
ghost use Rattle.general_operator.specs.Checks.{matrix_checks};
ghost use Rattle.generator_action.specs.Mass.{given, quotients};
ghost use Rattle.generator_action.specs.Known.{Answered};
ghost use Rattle.transpose.specs.Transpose.{lent, start_checks, forward_checks, lent_checks, before_transposing, buffers, lengths, buffers_after, transposed_answer};

use checks::{Checked, Reason, Refusal};
use generator_action::Largest;

// 9.
fn check_start(n: usize, starts: &[u32]) -> Checked
    requires { 0 < length starts.now }
    ensures { (columns : List ℕ) (entries : List Float) → result ≡ first (start_checks (csr n starts.now columns entries)) }
{
    if starts[0] != 0 {
        return Err(Refusal {
            reason: Reason::FirstRowStart,
            value: float::not_a_number(),
        });
    }
    Ok(())
}

// 1 to 11 of the matrix that is transposed: 9 is tested without a mass too.
fn check_forward(
    n: usize,
    starts: &[u32],
    cols: &[u32],
    vals: &[f64],
    with_mass: bool,
    mass: &[f64],
) -> Result<Largest, Refusal>
    ensures { Answered (quotients (csr n starts.now cols.now vals.now) (given with_mass mass.now)) (matrix_checks (csr n starts.now cols.now vals.now) ++ forward_checks (csr n starts.now cols.now vals.now) (given with_mass mass.now)) result }
{
    general_operator::validate_csr(n, starts, cols, vals)?;
    if with_mass {
        generator_checks::check_mass(n, starts, mass)?;
        return generator_checks::quotient_norm(n, starts, cols, vals, mass);
    }
    check_start(n, starts)?;
    generator_checks::entry_norm(n, starts, cols, vals)
}

// 30. n + 1 is not formed.
fn check_lent(n: usize, entries: usize, t_starts: usize, t_cols: usize, t_vals: usize) -> Checked
    ensures { (starts columns : List ℕ) (vals : List Float) → length vals ≡ entries → result ≡ first (lent_checks (csr n starts columns vals) (lent t_starts t_cols t_vals)) }
{
    if t_starts <= n {
        return Err(Refusal {
            reason: Reason::TransposedLength,
            value: float::not_a_number(),
        });
    }
    if t_cols < entries {
        return Err(Refusal {
            reason: Reason::TransposedLength,
            value: float::not_a_number(),
        });
    }
    if t_vals < entries {
        return Err(Refusal {
            reason: Reason::TransposedLength,
            value: float::not_a_number(),
        });
    }
    Ok(())
}

// All that is checked before the buffers are written.
fn check_before(
    n: usize,
    starts: &[u32],
    cols: &[u32],
    vals: &[f64],
    with_mass: bool,
    mass: &[f64],
    t_starts: usize,
    t_cols: usize,
    t_vals: usize,
) -> Checked
    ensures { result ≡ first (before_transposing (csr n starts.now cols.now vals.now) (given with_mass mass.now) (lent t_starts t_cols t_vals)) }
{
    check_forward(n, starts, cols, vals, with_mass, mass)?;
    check_lent(n, vals.len(), t_starts, t_cols, t_vals)
}

// Every check of the matrix of a transposed job, on any input; then its norm, and the first row that has it. Past 30 the buffers hold the transposed
// quotients.
pub fn check_transposed(
    n: usize,
    starts: &[u32],
    cols: &[u32],
    vals: &[f64],
    with_mass: bool,
    mass: &[f64],
    t_starts: &mut [u32],
    t_cols: &mut [u32],
    t_vals: &mut [f64],
) -> Result<Largest, Refusal>
    ensures value { result ≡ transposed_answer (csr n starts.now cols.now vals.now) (given with_mass mass.now) (lengths (buffers t_starts.old t_cols.old t_vals.old)) }
    ensures t_vals_after { buffers t_starts.new t_cols.new t_vals.new ≡ buffers_after (csr n starts.now cols.now vals.now) (given with_mass mass.now) (buffers t_starts.old t_cols.old t_vals.old) }
{
    let entries = vals.len();
    check_before(
        n,
        starts,
        cols,
        vals,
        with_mass,
        mass,
        t_starts.len(),
        t_cols.len(),
        t_vals.len(),
    )?;
    transpose_csr::transpose_csr(
        n, starts, cols, vals, with_mass, mass, t_starts, t_cols, t_vals,
    );
    let rows = n + 1;
    generator_checks::entry_norm(n, &t_starts[..rows], &t_cols[..entries], &t_vals[..entries])
}
