// The Krylov call for programs in other languages: straight on slices, with no copy and no memory of its own.
#![tactic(auto)]

ghost use Rattle.std.specs.Prelude.{◌≡◌};
ghost use Rattle.combination.specs.Call.{ends};
ghost use Rattle.general_operator.specs.Csr.{csr};
ghost use Rattle.generator_action.specs.Mass.{given};
ghost use Rattle.generator_action.specs.Generator.{forward};
ghost use Rattle.krylov_job.specs.KrylovCall.{phi_combination_krylov};
ghost use Rattle.phi_solver.specs.Combine.{answering};
ghost use Rattle.answers.specs.Told.{krylov_numbers, run_numbers, options};

// `phi_krylov::phi_combination_krylov`, told by `krylov_numbers`.
pub fn hazhendu_phi_combination_krylov(
    n: usize,
    starts: &[u32],
    cols: &[u32],
    vals: &[f64],
    with_mass: bool,
    mass: &[f64],
    tau: f64,
    count: usize,
    w: &[f64],
    tol: f64,
    m: usize,
    max_substeps: usize,
    out: &mut [f64],
    work: &mut [f64],
    value: &mut f64,
    substeps: &mut usize,
    matvecs: &mut usize,
    rejected: &mut usize,
    shortest: &mut f64,
    last: &mut f64,
) -> u32
    ensures { ends (run_numbers result value.new substeps.new matvecs.new rejected.new shortest.new last.new) out.new work.new ≡ answering krylov_numbers (phi_combination_krylov (forward (csr n starts.now cols.now vals.now) (given with_mass mass.now)) tau count w.now (options tol m max_substeps) out.old work.old) }
{
    let o = answers::options(tol, m, max_substeps);
    let answer = phi_krylov::phi_combination_krylov(
        n, starts, cols, vals, with_mass, mass, tau, count, w, o, out, work,
    );
    answers::krylov_numbers(answer, value, substeps, matvecs, rejected, shortest, last)
}
