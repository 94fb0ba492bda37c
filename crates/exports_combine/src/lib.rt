// The combination by either solver for programs in other languages: straight on slices, with no copy and no memory of its own.
#![tactic(auto)]

ghost use Rattle.std.specs.Prelude.{◌≡◌};
ghost use Rattle.combination.specs.Call.{ends};
ghost use Rattle.general_operator.specs.Csr.{csr};
ghost use Rattle.generator_action.specs.Mass.{given};
ghost use Rattle.generator_action.specs.Generator.{forward};
ghost use Rattle.phi_solver.specs.Combine.{answering, combine};
ghost use Rattle.answers.specs.Told.{phi_numbers, run_numbers, options, solver};

// `phi_solver::combine`, told by `phi_numbers`.
#[unsafe(no_mangle)]
pub extern "C" fn hazhendu_combine(
    n: usize,
    starts: &[u32],
    cols: &[u32],
    vals: &[f64],
    with_mass: bool,
    mass: &[f64],
    tau: f64,
    degree: u32,
    count: usize,
    w: &[f64],
    krylov: bool,
    tol: f64,
    m: usize,
    max_substeps: usize,
    out: &mut [f64],
    work: &mut [f64],
    value: &mut f64,
    first: &mut u64,
    second: &mut u64,
    third: &mut u64,
    shortest: &mut f64,
    last: &mut f64,
) -> u32
    ensures { ends (run_numbers result value.new first.new second.new third.new shortest.new last.new) out.new work.new ≡ answering phi_numbers (combine (solver krylov degree (options tol m max_substeps)) (forward (csr n starts.now cols.now vals.now) (given with_mass mass.now)) tau count w.now out.old work.old) }
{
    let o = answers::options(tol, m, max_substeps);
    let chosen = answers::solver(krylov, degree, o);
    let answer = phi_solver::combine(
        chosen, n, starts, cols, vals, with_mass, mass, tau, count, w, out, work,
    );
    answers::phi_numbers(answer, value, first, second, third, shortest, last)
}
