// Rows of the two matrices of a join: whether their columns rise, how many entries they have together, and whether each sum is finite.
// Rows are gone through by their number: a row is told by two places of two slices, and windows of both read no plainer.
#![tactic(auto)]

ghost use Rattle.std.specs.Prelude.{◌≡◌, List, ◌+◌, ◌-◌, ◌<◌, length, Float, MatchBool};
ghost use Rattle.lists.specs.Loop.{stack};
ghost use Rattle.checks.specs.First.{first};
ghost use Rattle.general_operator.specs.Csr.{csr};
ghost use Rattle.join_rows.specs.Join.{joined_columns, joined_values, join, unordered, value_checks};
ghost use Rattle.join_rows.specs.Inner.{Rows, unordered_row, Ordered, Joinable, Repeats, Rises};
ghost use Rattle.row_merge.specs.Merge.{advance};

use checks::{Checked, Reason, Refusal};

// The lengths of the slices that the result is written to.
#[derive(Clone, Copy)]
pub struct Lengths {
    pub starts: usize,
    pub columns: usize,
    pub values: usize,
}

// 35 of one row.
fn row_unordered(row: &[u32]) -> bool
    ensures { MatchBool result (Repeats row.now) (Rises row.now) }
{
    row.windows(2).any(|w| w[1] <= w[0])
}

// 35 of row i of one input.
fn unordered_at(n: usize, starts: &[u32], cols: &[u32], i: usize) -> bool
    requires rows { Rows n starts.now cols.now }
    requires i_lt_n { i < n }
    ensures { result ≡ unordered_row starts.now cols.now i }
{
    let from = starts[i] as usize;
    let to = starts[i + 1] as usize;
    row_unordered(&cols[from..to])
}

// 35 of one input. Entries before the first row start are in no row.
pub fn is_unordered(n: usize, starts: &[u32], cols: &[u32]) -> bool
    requires { Rows n starts.now cols.now }
    ensures { (vals : List Float) → result ≡ unordered (csr n starts.now cols.now vals) }
{
    (0..n).any(|i| unordered_at(n, starts, cols, i))
}

// How many entries row i of the result has.
fn count_row(
    n: usize,
    starts_a: &[u32],
    cols_a: &[u32],
    starts_b: &[u32],
    cols_b: &[u32],
    i: usize,
) -> usize
    requires ordered { Ordered n starts_a.now cols_a.now }
    requires ordered_2 { Ordered n starts_b.now cols_b.now }
    requires i_lt_n { i < n }
    ensures { (u v : List Float) → result ≡ length (joined_columns (csr n starts_a.now cols_a.now u) (csr n starts_b.now cols_b.now v) i) }
{
    let mut m = row_merge::row_start(starts_a, starts_b, i);
    let mut count = 0;
    loop {
        let x = row_merge::next_column(n, cols_a, cols_b, m);
        if x.column >= n {
            return count;
        }
        count += 1;
        m = row_merge::advance(m, x);
    }
}

// How many entries the result has, whatever the values.
pub fn count_entries(
    n: usize,
    starts_a: &[u32],
    cols_a: &[u32],
    starts_b: &[u32],
    cols_b: &[u32],
) -> usize
    requires ordered { Ordered n starts_a.now cols_a.now }
    requires ordered_2 { Ordered n starts_b.now cols_b.now }
    ensures { (u v : List Float) → result ≡ length (stack n (joined_columns (csr n starts_a.now cols_a.now u) (csr n starts_b.now cols_b.now v))) }
{
    let mut count = 0;
    for i in 0..n {
        count += count_row(n, starts_a, cols_a, starts_b, cols_b, i);
    }
    count
}

// 6 of row i of the result.
fn check_row_values(
    n: usize,
    starts_a: &[u32],
    cols_a: &[u32],
    vals_a: &[f64],
    starts_b: &[u32],
    cols_b: &[u32],
    vals_b: &[f64],
    i: usize,
) -> Checked
    requires joinable { Joinable (csr n starts_a.now cols_a.now vals_a.now) (csr n starts_b.now cols_b.now vals_b.now) }
    requires i_lt_n { i < n }
    ensures { result ≡ first (value_checks (joined_values (csr n starts_a.now cols_a.now vals_a.now) (csr n starts_b.now cols_b.now vals_b.now) i)) }
{
    let mut m = row_merge::row_start(starts_a, starts_b, i);
    loop {
        let x = row_merge::next_column(n, cols_a, cols_b, m);
        if x.column >= n {
            return Ok(());
        }
        let value = row_merge::value_at(vals_a, vals_b, m, x);
        if !float::is_finite(value) {
            return Err(Refusal {
                reason: Reason::EntryNotFinite,
                value,
            });
        }
        m = row_merge::advance(m, x);
    }
}

// 6 of the result, before anything is written.
pub fn check_values(
    n: usize,
    starts_a: &[u32],
    cols_a: &[u32],
    vals_a: &[f64],
    starts_b: &[u32],
    cols_b: &[u32],
    vals_b: &[f64],
) -> Checked
    requires { Joinable (csr n starts_a.now cols_a.now vals_a.now) (csr n starts_b.now cols_b.now vals_b.now) }
    ensures { result ≡ first (value_checks (join (csr n starts_a.now cols_a.now vals_a.now) (csr n starts_b.now cols_b.now vals_b.now)).entries) }
{
    for i in 0..n {
        check_row_values(n, starts_a, cols_a, vals_a, starts_b, cols_b, vals_b, i)?;
    }
    Ok(())
}
