// The calls of `exports_paused` for C. A crate is a library, which others name, or a static library, which C links, so these are two.
#![tactic(auto)]

ghost use Rattle.std.specs.Prelude.{◌≡◌};
ghost use Rattle.general_operator.specs.Csr.{csr};
ghost use Rattle.generator_action.specs.Mass.{given};
ghost use Rattle.generator_action.specs.Generator.{forward};
ghost use Rattle.answers.specs.Told.{options};
ghost use Rattle.exports_paused.specs.Told.{state, told, start_told, tolerance, step_told};

// `exports_paused::hazhendu_krylov_start`.
#[unsafe(no_mangle)]
pub extern "C" fn hazhendu_krylov_start(
    n: usize,
    starts: &[u32],
    cols: &[u32],
    vals: &[f64],
    with_mass: bool,
    mass: &[f64],
    tau: f64,
    count: usize,
    w: &[f64],
    tol: f64,
    m: usize,
    max_substeps: usize,
    out: &mut [f64],
    work: &mut [f64],
    field: &mut [f64],
    numbers: &mut [f64],
    counts: &mut [usize],
    value: &mut f64,
) -> u32
    ensures { told (state result value.new numbers.new counts.new) out.new work.new field.new ≡ start_told (options tol m max_substeps) (record { g = forward (csr n starts.now cols.now vals.now) (given with_mass mass.now); tau = tau; count = count; w = w.now }) out.old work.old field.old numbers.old counts.old }
{
    exports_paused::hazhendu_krylov_start(
        n,
        starts,
        cols,
        vals,
        with_mass,
        mass,
        tau,
        count,
        w,
        tol,
        m,
        max_substeps,
        out,
        work,
        field,
        numbers,
        counts,
        value,
    )
}

// `exports_paused::hazhendu_krylov_step`.
#[unsafe(no_mangle)]
pub extern "C" fn hazhendu_krylov_step(
    n: usize,
    starts: &[u32],
    cols: &[u32],
    vals: &[f64],
    with_mass: bool,
    mass: &[f64],
    tau: f64,
    count: usize,
    w: &[f64],
    with_tol: bool,
    tol: f64,
    out: &mut [f64],
    work: &mut [f64],
    field: &mut [f64],
    numbers: &mut [f64],
    counts: &mut [usize],
    value: &mut f64,
) -> u32
    ensures { told (state result value.new numbers.new counts.new) out.new work.new field.new ≡ step_told (record { tolerance = tolerance with_tol tol; job = record { g = forward (csr n starts.now cols.now vals.now) (given with_mass mass.now); tau = tau; count = count; w = w.now }; output = out.old; memory = work.old }) field.old numbers.old counts.old }
{
    exports_paused::hazhendu_krylov_step(
        n, starts, cols, vals, with_mass, mass, tau, count, w, with_tol, tol, out, work, field,
        numbers, counts, value,
    )
}
