// The call of `exports_krylov` for C. A crate is a library, which others name, or a static library, which C links, so these are two.
#![tactic(auto)]

ghost use Rattle.std.specs.Prelude.{◌≡◌};
ghost use Rattle.combination.specs.Call.{ends};
ghost use Rattle.general_operator.specs.Csr.{csr};
ghost use Rattle.generator_action.specs.Mass.{given};
ghost use Rattle.generator_action.specs.Generator.{forward};
ghost use Rattle.krylov_job.specs.KrylovCall.{phi_combination_krylov};
ghost use Rattle.phi_solver.specs.Combine.{answering};
ghost use Rattle.answers.specs.Told.{krylov_numbers, run_numbers, options};

// `exports_krylov::hazhendu_phi_combination_krylov`.
#[unsafe(no_mangle)]
pub extern "C" fn hazhendu_phi_combination_krylov(
    n: usize,
    starts: &[u32],
    cols: &[u32],
    vals: &[f64],
    with_mass: bool,
    mass: &[f64],
    tau: f64,
    count: usize,
    w: &[f64],
    tol: f64,
    m: usize,
    max_substeps: usize,
    out: &mut [f64],
    work: &mut [f64],
    value: &mut f64,
    substeps: &mut usize,
    matvecs: &mut usize,
    rejected: &mut usize,
    shortest: &mut f64,
    last: &mut f64,
) -> u32
    ensures { ends (run_numbers result value.new substeps.new matvecs.new rejected.new shortest.new last.new) out.new work.new ≡ answering krylov_numbers (phi_combination_krylov (forward (csr n starts.now cols.now vals.now) (given with_mass mass.now)) tau count w.now (options tol m max_substeps) out.old work.old) }
{
    exports_krylov::hazhendu_phi_combination_krylov(
        n,
        starts,
        cols,
        vals,
        with_mass,
        mass,
        tau,
        count,
        w,
        tol,
        m,
        max_substeps,
        out,
        work,
        value,
        substeps,
        matvecs,
        rejected,
        shortest,
        last,
    )
}
