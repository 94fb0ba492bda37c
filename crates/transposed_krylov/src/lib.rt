// Krylov on the transposed matrix.
#![tactic(auto)]

ghost use Rattle.std.specs.Prelude.{◌≡◌};
ghost use Rattle.general_operator.specs.Csr.{csr};
ghost use Rattle.generator_action.specs.Mass.{given};
ghost use Rattle.transpose.specs.Transpose.{buffers};
ghost use Rattle.combination.specs.Call.{ends};
ghost use Rattle.transposed.specs.Transposed.{lends, phi_combination_krylov_transposed};

use checks::Refusal;
use krylov_advance::KrylovPhiReport;
use krylov_job::KrylovPhiOptions;

// `phi_combination_krylov` on them.
pub fn phi_combination_krylov_transposed(
    n: usize,
    starts: &[u32],
    cols: &[u32],
    vals: &[f64],
    with_mass: bool,
    mass: &[f64],
    t_starts: &mut [u32],
    t_cols: &mut [u32],
    t_vals: &mut [f64],
    tau: f64,
    count: usize,
    w: &[f64],
    o: KrylovPhiOptions,
    out: &mut [f64],
    work: &mut [f64],
) -> Result<KrylovPhiReport, Refusal>
    ensures { lends (ends result out.new work.new) (buffers t_starts.new t_cols.new t_vals.new) ≡ phi_combination_krylov_transposed (csr n starts.now cols.now vals.now) (given with_mass mass.now) (buffers t_starts.old t_cols.old t_vals.old) tau count w.now o out.old work.old }
{
    transposed::on_transposed(
        n,
        starts,
        cols,
        vals,
        with_mass,
        mass,
        t_starts,
        t_cols,
        t_vals,
        out,
        work,
        |q_rows, q_cols, q_vals, none, g, out, work| {
            phi_krylov::combined(q_rows, q_cols, q_vals, none, g, tau, count, w, o, out, work)
        },
    )
}
