// The check of a matrix whose transpose is used, for programs in other languages.
#![tactic(auto)]

ghost use Rattle.std.specs.Prelude.{◌≡◌};
ghost use Rattle.general_operator.specs.Csr.{csr};
ghost use Rattle.generator_action.specs.Mass.{given};
ghost use Rattle.transpose.specs.Transpose.{buffers, lengths, buffers_after, transposed_answer};
ghost use Rattle.answers.specs.Told.{numbers, matrix_numbers};
ghost use Rattle.transposed_told.specs.Telling.{matrix_told};

// `transposed_checks::check_transposed`, told by `matrix_numbers`.
#[unsafe(no_mangle)]
pub extern "C" fn hazhendu_check_transposed(
    n: usize,
    starts: &[u32],
    cols: &[u32],
    vals: &[f64],
    with_mass: bool,
    mass: &[f64],
    t_starts: &mut [u32],
    t_cols: &mut [u32],
    t_vals: &mut [f64],
    value: &mut f64,
    row: &mut usize,
) -> u32
    ensures { matrix_told (numbers result value.new row.new 0 0) (buffers t_starts.new t_cols.new t_vals.new) ≡ matrix_told (matrix_numbers (transposed_answer (csr n starts.now cols.now vals.now) (given with_mass mass.now) (lengths (buffers t_starts.old t_cols.old t_vals.old)))) (buffers_after (csr n starts.now cols.now vals.now) (given with_mass mass.now) (buffers t_starts.old t_cols.old t_vals.old)) }
{
    let answer = transposed_checks::check_transposed(
        n, starts, cols, vals, with_mass, mass, t_starts, t_cols, t_vals,
    );
    answers::matrix_numbers(answer, value, row)
}
