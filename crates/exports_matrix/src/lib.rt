// The check of a matrix and the join of two for programs in other languages: straight on slices, with no copy and no memory of its own.
#![tactic(auto)]

ghost use Rattle.std.specs.Prelude.{◌≡◌};
ghost use Rattle.general_operator.specs.Csr.{csr};
ghost use Rattle.generator_action.specs.Mass.{given};
ghost use Rattle.generator_action.specs.Answer.{matrix_answer};
ghost use Rattle.join_rows.specs.Join.{join_call};
ghost use Rattle.answers.specs.Told.{numbers, matrix_numbers, join_told, telling_join};

// `generator_checks::check_generator`, told by `matrix_numbers`.
#[unsafe(no_mangle)]
pub extern "C" fn hazhendu_check_generator(
    n: usize,
    starts: &[u32],
    cols: &[u32],
    vals: &[f64],
    with_mass: bool,
    mass: &[f64],
    value: &mut f64,
    row: &mut usize,
) -> u32
    ensures { numbers result value.new row.new 0 0 ≡ matrix_numbers (matrix_answer (csr n starts.now cols.now vals.now) (given with_mass mass.now)) }
{
    let answer = generator_checks::check_generator(n, starts, cols, vals, with_mass, mass);
    answers::matrix_numbers(answer, value, row)
}

// `join::join`, told by `join_numbers`: the barrel first, then the mount, then the slices of the result.
#[unsafe(no_mangle)]
pub extern "C" fn hazhendu_join(
    n_a: usize,
    starts_a: &[u32],
    cols_a: &[u32],
    vals_a: &[f64],
    n_b: usize,
    starts_b: &[u32],
    cols_b: &[u32],
    vals_b: &[f64],
    starts: &mut [u32],
    cols: &mut [u32],
    vals: &mut [f64],
    value: &mut f64,
    entries: &mut usize,
) -> u32
    ensures { join_told (numbers result value.new entries.new 0 0) starts.new cols.new vals.new ≡ telling_join (join_call (csr n_a starts_a.now cols_a.now vals_a.now) (csr n_b starts_b.now cols_b.now vals_b.now) starts.old cols.old vals.old) }
{
    let answer = join::join(
        n_a, starts_a, cols_a, vals_a, n_b, starts_b, cols_b, vals_b, starts, cols, vals,
    );
    answers::join_numbers(answer, value, entries)
}
