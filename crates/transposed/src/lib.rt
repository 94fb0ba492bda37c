// The four calls on the transposed matrix, over buffers that are lent for it.
#![tactic(auto)]

ghost use Rattle.std.specs.Prelude.{◌≡◌, List, ℕ, Float, Result};
ghost use Rattle.checks.specs.First.{Check, first};
ghost use Rattle.checks.specs.Reasons.{Sound, Refused};
ghost use Rattle.checks.specs.declared.Reason.{Reason};
ghost use Rattle.checks.specs.declared.Refusal.{Refusal};
ghost use Rattle.general_operator.specs.Csr.{csr};
ghost use Rattle.generator_action.specs.Mass.{given};
ghost use Rattle.generator_action.specs.Generator.{Generator};
ghost use Rattle.generator_action.specs.Known.{Passed};
ghost use Rattle.transpose.specs.Transpose.{buffers, lengths, buffers_after, transposed};
ghost use Rattle.combination.specs.Call.{Call, ends};
ghost use Rattle.taylor_schedule.specs.Inner.{after_checks};
ghost use Rattle.transposed.specs.Transposed.{lends};

use checks::Refusal;
use generator_action::Shape;

// The transposed quotients are checked and laid into the buffers, where they stay; the call is then made over the fronts of these, with an empty mass.
pub fn on_transposed<
    A,
    F: Drop
        + FnOnce(
            &[u32],
            &[u32],
            &[f64],
            &[f64],
            Shape,
            &mut [f64],
            &mut [f64],
        ) -> Result<A, Refusal>,
>(
    n: usize,
    starts: &[u32],
    cols: &[u32],
    vals: &[f64],
    with_mass: bool,
    mass: &[f64],
    t_starts: &mut [u32],
    t_cols: &mut [u32],
    t_vals: &mut [f64],
    out: &mut [f64],
    work: &mut [f64],
    call: F,
) -> Result<A, Refusal>
    requires { (r c v m : _) (g : _) (o w : _) → Passed (csr g.n r.now c.now v.now) (given g.with_mass m.now) g → F.pre call r c v m g o w }
    ensures { (job : Generator → List Float → List Float → Call (Result A Refusal)) → ((r c v m : _) (g : _) (o w : _) (answer : _) (p q : _) → F.post call r c v m g o w answer p q → (gs : List Check) → Sound ≡ first gs → ends answer p.now q.now ≡ job (after_checks gs (csr g.n r.now c.now v.now) (given g.with_mass m.now) g) o.now w.now) → ((g : Generator) (k : Reason) (x : Float) → Refused k x ≡ first g.checks → ends (Refused k x) out.old work.old ≡ job g out.old work.old) → lends (ends result out.new work.new) (buffers t_starts.new t_cols.new t_vals.new) ≡ lends (job (transposed (csr n starts.now cols.now vals.now) (given with_mass mass.now) (lengths (buffers t_starts.old t_cols.old t_vals.old))) out.old work.old) (buffers_after (csr n starts.now cols.now vals.now) (given with_mass mass.now) (buffers t_starts.old t_cols.old t_vals.old)) }
{
    let g = transposed_shape::transposed_shape(
        n, starts, cols, vals, with_mass, mass, t_starts, t_cols, t_vals,
    )?;
    let q_rows = &t_starts[..n + 1];
    let q_cols = &t_cols[..vals.len()];
    let q_vals = &t_vals[..vals.len()];
    call(q_rows, q_cols, q_vals, &mass[..0], g, out, work)
}
