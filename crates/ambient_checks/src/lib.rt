// The checks of a soak under a changing ambient level: of field, load and log.
#![tactic(auto)]

ghost use Rattle.std.specs.Prelude.{◌≡◌, not, ◌||◌, ◌-◌, ◌<◌, eqb, ltb, leb};
ghost use Rattle.checks.specs.First.{first};
ghost use Rattle.ambient_checks.specs.Log.{short, field_checks, log_checks};
ghost use Rattle.ambient_checks.specs.Inner.{log_of, places};

use checks::{Checked, Reason, Refusal};

// 15 for the output, 16 for field, then load, 17 for field, then load.
pub fn check_fields(n: usize, field: &[f64], load: &[f64], output: usize) -> Checked
    ensures { result ≡ first (field_checks n field.now load.now output) }
{
    vector_checks::check_lengths(output, n, field.len(), n)?;
    if load.len() != n {
        return Err(Refusal {
            reason: Reason::VectorLength,
            value: float::count(load.len()),
        });
    }
    vector_checks::check_finite(field)?;
    vector_checks::check_finite(load)
}

// W not 1 to 1,024, or the node not below n.
fn wrong_window(n: usize, width: usize, node: usize) -> bool
    ensures { result ≡ (eqb width 0 || (ltb 1024 width || leb n node)) }
{
    width == 0 || width > 1024 || n <= node
}

// Not 1 to 100,000 records, or levels not as many as durations.
fn wrong_records(records: usize, levels: usize) -> bool
    ensures { result ≡ (eqb records 0 || (ltb 100000 records || not (eqb levels records))) }
{
    records == 0 || records > 100000 || levels != records
}

// A slice for the results with fewer places than records.
fn short(records: usize, temperatures: usize, largest: usize, smallest: usize) -> bool
    ensures { result ≡ short records (places temperatures largest smallest) }
{
    temperatures < records || largest < records || smallest < records
}

// 38 to 40.
pub fn check_log(
    n: usize,
    durations: &[f64],
    levels: &[f64],
    width: usize,
    node: usize,
    temperatures: usize,
    largest: usize,
    smallest: usize,
) -> Checked
    ensures { result ≡ first (log_checks n (log_of durations.now levels.now) width node (places temperatures largest smallest)) }
{
    let records = durations.len();
    if wrong_window(n, width, node) {
        return Err(Refusal {
            reason: Reason::WindowOrNode,
            value: float::not_a_number(),
        });
    }
    if wrong_records(records, levels.len()) {
        return Err(Refusal {
            reason: Reason::RecordCount,
            value: float::not_a_number(),
        });
    }
    if short(records, temperatures, largest, smallest) {
        return Err(Refusal {
            reason: Reason::ResultsLength,
            value: float::not_a_number(),
        });
    }
    Ok(())
}
