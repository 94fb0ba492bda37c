// The checks 1 to 6 of a sparse matrix, on any input.
#![tactic(auto)]

ghost use Rattle.std.specs.Prelude.{◌≡◌, not, ◌||◌, ◌-◌, ◌<◌, length, leb};
ghost use Rattle.lists.specs.Positions.{IsPosition};
ghost use Rattle.doubles.specs.F64.{is_finite};
ghost use Rattle.checks.specs.First.{first};
ghost use Rattle.general_operator.specs.Csr.{csr};
ghost use Rattle.general_operator.specs.Checks.{wrong_rows, wrong_entries, too_large, falls, bad_entry, shape_checks, row_checks, entry_checks, matrix_checks};

use checks::{Checked, Reason, Refusal};

// A sparse matrix by rows: n of them, the entries of row i from starts[i] up to starts[i + 1], each with its column.
#[derive(Clone, Copy)]
pub struct CsrMatrix<'a> {
    pub n: usize,
    pub starts: &'a [u32],
    pub cols: &'a [u32],
    pub vals: &'a [f64],
}

// n + 1 is not formed: n may be the largest number.
#[tactic(auto, unfolding(crate::specs::Checks::wrong_rows))]
fn wrong_rows(n: usize, len: usize) -> bool
    ensures { result ≡ wrong_rows n len }
{
    n == 0 || len == 0 || len - 1 != n
}

#[tactic(auto, unfolding(crate::specs::Checks::wrong_entries))]
fn wrong_entries(n: usize, starts: &[u32], columns: usize, entries: usize) -> bool
    requires { n < length starts.now }
    ensures { result ≡ wrong_entries n starts.now columns entries }
{
    columns != entries || starts[n] as usize != entries
}

#[tactic(auto, unfolding(crate::specs::Checks::too_large))]
fn too_large(n: usize, entries: usize) -> bool
    ensures { result ≡ too_large n entries }
{
    n > 1000000 || entries > 16777216
}

// 1 to 3.
fn check_shape(n: usize, starts: &[u32], columns: usize, entries: usize) -> Checked
    ensures { result ≡ first (shape_checks n starts.now columns entries) }
{
    if wrong_rows(n, starts.len()) {
        return Err(Refusal {
            reason: Reason::RowStartsLength,
            value: float::count(starts.len()),
        });
    }
    if wrong_entries(n, starts, columns, entries) {
        return Err(Refusal {
            reason: Reason::EntryCount,
            value: float::count(entries),
        });
    }
    if too_large(n, entries) {
        return Err(Refusal {
            reason: Reason::MatrixTooLarge,
            value: float::not_a_number(),
        });
    }
    Ok(())
}

// The first row whose start falls.
#[tactic(auto, unfolding(crate::specs::Checks::falls))]
fn first_fall(starts: &[u32]) -> Option<usize>
    ensures { IsPosition (falls starts.now) (length starts.now - 1) result }
{
    starts.windows(2).position(|w| w[1] < w[0])
}

// 4.
fn check_rows(starts: &[u32]) -> Checked
    ensures { result ≡ first (row_checks (length starts.now - 1) starts.now) }
{
    if let Some(i) = first_fall(starts) {
        return Err(Refusal {
            reason: Reason::RowStartsFall,
            value: float::count(i),
        });
    }
    Ok(())
}

fn is_bad_entry(n: usize, c: u32, x: f64) -> bool
    ensures { result ≡ (leb n c || not (is_finite x)) }
{
    n <= c as usize || !float::is_finite(x)
}

// Entries before the first row start are tested like all others.
#[tactic(auto, unfolding(crate::specs::Checks::bad_entry, crate::specs::Checks::bad_column))]
fn first_bad_entry(n: usize, cols: &[u32], vals: &[f64]) -> Option<usize>
    requires { length cols.now ≡ length vals.now }
    ensures { IsPosition (bad_entry n cols.now vals.now) (length vals.now) result }
{
    cols.iter()
        .zip(vals)
        .position(|(c, x)| is_bad_entry(n, *c, *x))
}

// 5 and 6.
fn check_entries(n: usize, cols: &[u32], vals: &[f64]) -> Checked
    requires { length cols.now ≡ length vals.now }
    ensures { result ≡ first (entry_checks n cols.now vals.now) }
{
    let Some(k) = first_bad_entry(n, cols, vals) else {
        return Ok(());
    };
    let c = cols[k] as usize;
    if n <= c {
        return Err(Refusal {
            reason: Reason::ColumnRange,
            value: float::count(c),
        });
    }
    Err(Refusal {
        reason: Reason::EntryNotFinite,
        value: vals[k],
    })
}

// 1 to 6.
pub fn validate_csr(n: usize, starts: &[u32], cols: &[u32], vals: &[f64]) -> Checked
    ensures { result ≡ first (matrix_checks (csr n starts.now cols.now vals.now)) }
{
    check_shape(n, starts, cols.len(), vals.len())?;
    check_rows(starts)?;
    check_entries(n, cols, vals)
}
