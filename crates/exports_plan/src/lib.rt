// The plan of a Taylor job alone for programs in other languages: straight on slices, with no copy and no memory of its own.
#![tactic(auto)]

ghost use Rattle.std.specs.Prelude.{◌≡◌, []};
ghost use Rattle.combination.specs.Call.{ends};
ghost use Rattle.general_operator.specs.Csr.{csr};
ghost use Rattle.generator_action.specs.Mass.{given};
ghost use Rattle.generator_action.specs.Generator.{forward};
ghost use Rattle.phi_solver.specs.Combine.{answering};
ghost use Rattle.taylor_plan.specs.TaylorPlan.{taylor_plan};
ghost use Rattle.answers.specs.Told.{numbers, taylor_numbers};

// `taylor_plan::taylor_plan`, told by `taylor_numbers`.
#[unsafe(no_mangle)]
pub extern "C" fn hazhendu_taylor_plan(
    n: usize,
    starts: &[u32],
    cols: &[u32],
    vals: &[f64],
    with_mass: bool,
    mass: &[f64],
    tau: f64,
    degree: u32,
    work: &mut [f64],
    value: &mut f64,
    s: &mut u32,
    m: &mut u32,
    applications: &mut u64,
) -> u32
    ensures { ends (numbers result value.new s.new m.new applications.new) [] work.new ≡ answering taylor_numbers (taylor_plan (forward (csr n starts.now cols.now vals.now) (given with_mass mass.now)) tau degree work.old) }
{
    let answer = taylor_plan::taylor_plan(
        n, starts, cols, vals, with_mass, mass, tau, degree, work,
    );
    answers::taylor_numbers(answer, value, s, m, applications)
}
