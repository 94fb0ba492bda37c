// The checks of a join: those of both inputs, 34 and 35, and 36, 3 and 6 of the result.
#![tactic(auto)]

ghost use Rattle.std.specs.Prelude.{◌≡◌, List, ◌||◌, ltb, ◌+◌, ◌-◌, ◌≤◌, ◌<◌, Float};
ghost use Rattle.checks.specs.First.{first};
ghost use Rattle.general_operator.specs.Csr.{csr};
ghost use Rattle.join_rows.specs.Join.{join, input_checks, pair_checks, result_checks, join_checks};
ghost use Rattle.join_rows.specs.Inner.{Rows, Joinable};

use checks::{Checked, Reason, Refusal};
use join_rows::Lengths;

// 1 to 6 and 11 of one input: those of a generator without mass.
fn check_input(n: usize, starts: &[u32], cols: &[u32], vals: &[f64]) -> Checked
    ensures { result ≡ first (input_checks (csr n starts.now cols.now vals.now)) }
{
    generator_checks::check_generator(n, starts, cols, vals, false, vals)?;
    Ok(())
}

// 36 of a result with n rows and so many entries.
fn is_short(n: usize, entries: usize, l: Lengths) -> bool
    requires { n ≤ 1000000 }
    ensures { result ≡ (ltb l.starts (n + 1) || (ltb l.columns entries || ltb l.values entries)) }
{
    l.starts < n + 1 || l.columns < entries || l.values < entries
}

// 36, 3 and 6 of the result, which is counted before it is written.
fn check_result(
    n: usize,
    starts_a: &[u32],
    cols_a: &[u32],
    vals_a: &[f64],
    starts_b: &[u32],
    cols_b: &[u32],
    vals_b: &[f64],
    l: Lengths,
) -> Checked
    requires { Joinable (csr n starts_a.now cols_a.now vals_a.now) (csr n starts_b.now cols_b.now vals_b.now) }
    ensures { result ≡ first (result_checks (join (csr n starts_a.now cols_a.now vals_a.now) (csr n starts_b.now cols_b.now vals_b.now)) l) }
{
    let entries = join_rows::count_entries(n, starts_a, cols_a, starts_b, cols_b);
    let short = is_short(n, entries, l);
    if short {
        return Err(Refusal {
            reason: Reason::JoinLength,
            value: float::not_a_number(),
        });
    }
    if entries > 16777216 {
        return Err(Refusal {
            reason: Reason::MatrixTooLarge,
            value: float::not_a_number(),
        });
    }
    join_rows::check_values(n, starts_a, cols_a, vals_a, starts_b, cols_b, vals_b)
}

// 34, then 35 of both.
fn check_pair(
    n_a: usize,
    starts_a: &[u32],
    cols_a: &[u32],
    n_b: usize,
    starts_b: &[u32],
    cols_b: &[u32],
) -> Checked
    requires rows { Rows n_a starts_a.now cols_a.now }
    requires rows_2 { Rows n_b starts_b.now cols_b.now }
    ensures { (u v : List Float) → result ≡ first (pair_checks (csr n_a starts_a.now cols_a.now u) (csr n_b starts_b.now cols_b.now v)) }
{
    if n_a != n_b {
        return Err(Refusal {
            reason: Reason::JoinRows,
            value: float::not_a_number(),
        });
    }
    if join_rows::is_unordered(n_a, starts_a, cols_a) {
        return Err(Refusal {
            reason: Reason::JoinColumnOrder,
            value: float::not_a_number(),
        });
    }
    if join_rows::is_unordered(n_b, starts_b, cols_b) {
        return Err(Refusal {
            reason: Reason::JoinColumnOrder,
            value: float::not_a_number(),
        });
    }
    Ok(())
}

// Every check, the barrel's wholly before the mount's.
pub fn check_join(
    n_a: usize,
    starts_a: &[u32],
    cols_a: &[u32],
    vals_a: &[f64],
    n_b: usize,
    starts_b: &[u32],
    cols_b: &[u32],
    vals_b: &[f64],
    l: Lengths,
) -> Checked
    ensures { result ≡ first (join_checks (csr n_a starts_a.now cols_a.now vals_a.now) (csr n_b starts_b.now cols_b.now vals_b.now) l) }
{
    check_input(n_a, starts_a, cols_a, vals_a)?;
    check_input(n_b, starts_b, cols_b, vals_b)?;
    check_pair(n_a, starts_a, cols_a, n_b, starts_b, cols_b)?;
    check_result(n_a, starts_a, cols_a, vals_a, starts_b, cols_b, vals_b, l)
}
