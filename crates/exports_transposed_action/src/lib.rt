// One phi-function on the transposed matrix for programs in other languages, the buffers of the transpose lent.
#![tactic(auto)]

ghost use Rattle.std.specs.Prelude.{◌≡◌};
ghost use Rattle.general_operator.specs.Csr.{csr};
ghost use Rattle.generator_action.specs.Mass.{given};
ghost use Rattle.combination.specs.Call.{ends};
ghost use Rattle.transpose.specs.Transpose.{buffers};
ghost use Rattle.transposed.specs.Transposed.{lends, phi_action_transposed};
ghost use Rattle.answers.specs.Told.{numbers, taylor_numbers};
ghost use Rattle.transposed_told.specs.Telling.{telling};

// `transposed_action::phi_action_transposed`, told by `taylor_numbers`.
#[unsafe(no_mangle)]
pub extern "C" fn hazhendu_phi_action_transposed(
    n: usize,
    starts: &[u32],
    cols: &[u32],
    vals: &[f64],
    with_mass: bool,
    mass: &[f64],
    t_starts: &mut [u32],
    t_cols: &mut [u32],
    t_vals: &mut [f64],
    tau: f64,
    degree: u32,
    k: usize,
    v: &[f64],
    out: &mut [f64],
    work: &mut [f64],
    value: &mut f64,
    s: &mut u32,
    m: &mut u32,
    applications: &mut u64,
) -> u32
    ensures { lends (ends (numbers result value.new s.new m.new applications.new) out.new work.new) (buffers t_starts.new t_cols.new t_vals.new) ≡ telling taylor_numbers (phi_action_transposed (csr n starts.now cols.now vals.now) (given with_mass mass.now) (buffers t_starts.old t_cols.old t_vals.old) tau degree k v.now out.old work.old) }
{
    let answer = transposed_action::phi_action_transposed(
        n, starts, cols, vals, with_mass, mass, t_starts, t_cols, t_vals, tau, degree, k, v, out,
        work,
    );
    answers::taylor_numbers(answer, value, s, m, applications)
}
