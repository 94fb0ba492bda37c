// One phi-function on the transposed matrix.
#![tactic(auto)]

ghost use Rattle.std.specs.Prelude.{◌≡◌};
ghost use Rattle.general_operator.specs.Csr.{csr};
ghost use Rattle.generator_action.specs.Mass.{given};
ghost use Rattle.transpose.specs.Transpose.{buffers};
ghost use Rattle.combination.specs.Call.{ends};
ghost use Rattle.transposed.specs.Transposed.{lends, phi_action_transposed};

use checks::Refusal;
use taylor_job::TaylorReport;

// `phi_action` on them.
pub fn phi_action_transposed(
    n: usize,
    starts: &[u32],
    cols: &[u32],
    vals: &[f64],
    with_mass: bool,
    mass: &[f64],
    t_starts: &mut [u32],
    t_cols: &mut [u32],
    t_vals: &mut [f64],
    tau: f64,
    cap: u32,
    k: usize,
    v: &[f64],
    out: &mut [f64],
    work: &mut [f64],
) -> Result<TaylorReport, Refusal>
    ensures { lends (ends result out.new work.new) (buffers t_starts.new t_cols.new t_vals.new) ≡ phi_action_transposed (csr n starts.now cols.now vals.now) (given with_mass mass.now) (buffers t_starts.old t_cols.old t_vals.old) tau cap k v.now out.old work.old }
{
    transposed::on_transposed(
        n,
        starts,
        cols,
        vals,
        with_mass,
        mass,
        t_starts,
        t_cols,
        t_vals,
        out,
        work,
        |q_rows, q_cols, q_vals, none, g, out, work| {
            phi_action::acted(q_rows, q_cols, q_vals, none, g, tau, cap, k, v, out, work)
        },
    )
}
