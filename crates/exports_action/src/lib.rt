// One phi-function for programs in other languages: straight on slices, with no copy and no memory of its own.
#![tactic(auto)]

ghost use Rattle.std.specs.Prelude.{◌≡◌};
ghost use Rattle.combination.specs.Call.{ends};
ghost use Rattle.general_operator.specs.Csr.{csr};
ghost use Rattle.generator_action.specs.Mass.{given};
ghost use Rattle.generator_action.specs.Generator.{forward};
ghost use Rattle.taylor_job.specs.Calls.{phi_action};
ghost use Rattle.phi_solver.specs.Combine.{answering};
ghost use Rattle.answers.specs.Told.{numbers, taylor_numbers};

// `phi_action::phi_action`, told by `taylor_numbers`.
#[unsafe(no_mangle)]
pub extern "C" fn hazhendu_phi_action(
    n: usize,
    starts: &[u32],
    cols: &[u32],
    vals: &[f64],
    with_mass: bool,
    mass: &[f64],
    tau: f64,
    degree: u32,
    k: usize,
    v: &[f64],
    out: &mut [f64],
    work: &mut [f64],
    value: &mut f64,
    s: &mut u32,
    m: &mut u32,
    applications: &mut u64,
) -> u32
    ensures { ends (numbers result value.new s.new m.new applications.new) out.new work.new ≡ answering taylor_numbers (phi_action (forward (csr n starts.now cols.now vals.now) (given with_mass mass.now)) tau degree k v.now out.old work.old) }
{
    let answer = phi_action::phi_action(
        n, starts, cols, vals, with_mass, mass, tau, degree, k, v, out, work,
    );
    answers::taylor_numbers(answer, value, s, m, applications)
}
