// The Krylov call on the transposed matrix for programs in other languages, the buffers of the transpose lent.
#![tactic(auto)]

ghost use Rattle.std.specs.Prelude.{◌≡◌};
ghost use Rattle.general_operator.specs.Csr.{csr};
ghost use Rattle.generator_action.specs.Mass.{given};
ghost use Rattle.combination.specs.Call.{ends};
ghost use Rattle.transpose.specs.Transpose.{buffers};
ghost use Rattle.transposed.specs.Transposed.{lends, phi_combination_krylov_transposed};
ghost use Rattle.answers.specs.Told.{run_numbers, krylov_numbers, options};
ghost use Rattle.transposed_told.specs.Telling.{telling};

// `transposed_krylov::phi_combination_krylov_transposed`, told by `krylov_numbers`.
#[unsafe(no_mangle)]
pub extern "C" fn hazhendu_phi_combination_krylov_transposed(
    n: usize,
    starts: &[u32],
    cols: &[u32],
    vals: &[f64],
    with_mass: bool,
    mass: &[f64],
    t_starts: &mut [u32],
    t_cols: &mut [u32],
    t_vals: &mut [f64],
    tau: f64,
    count: usize,
    w: &[f64],
    tol: f64,
    m: usize,
    max_substeps: usize,
    out: &mut [f64],
    work: &mut [f64],
    value: &mut f64,
    substeps: &mut usize,
    matvecs: &mut usize,
    rejected: &mut usize,
    shortest: &mut f64,
    last: &mut f64,
) -> u32
    ensures { lends (ends (run_numbers result value.new substeps.new matvecs.new rejected.new shortest.new last.new) out.new work.new) (buffers t_starts.new t_cols.new t_vals.new) ≡ telling krylov_numbers (phi_combination_krylov_transposed (csr n starts.now cols.now vals.now) (given with_mass mass.now) (buffers t_starts.old t_cols.old t_vals.old) tau count w.now (options tol m max_substeps) out.old work.old) }
{
    let o = answers::options(tol, m, max_substeps);
    let answer = transposed_krylov::phi_combination_krylov_transposed(
        n, starts, cols, vals, with_mass, mass, t_starts, t_cols, t_vals, tau, count, w, o, out,
        work,
    );
    answers::krylov_numbers(answer, value, substeps, matvecs, rejected, shortest, last)
}
