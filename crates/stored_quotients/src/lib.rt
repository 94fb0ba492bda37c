// The quotients, written to the working memory.
#![tactic(auto)]

ghost use Rattle.std.specs.Prelude.{◌≡◌, true, ◌+◌, ◌-◌, ◌≤◌, length, get_or};
ghost use Rattle.lists.specs.Loop.{tabulate};
ghost use Rattle.lists.specs.Window.{splice};
ghost use Rattle.doubles.specs.F64.{◌⊘◌, at};
ghost use Rattle.general_operator.specs.Csr.{Valid};
ghost use Rattle.general_operator.specs.Matrix.{matrix};
ghost use Rattle.generator_action.specs.Mass.{given, normalise, stored};
ghost use Rattle.generator_action.specs.Known.{Divided};

use general_operator::CsrMatrix;

// One row: the entries from `from` up to `to`, divided by m, are written from `place`.
fn divide_row(vals: &[f64], work: &mut [f64], place: usize, from: usize, to: usize, m: f64)
    requires { (from ≤ to) × (to ≤ length vals.now) × (place + (to - from) ≤ length work.old) }
    ensures { work.new ≡ splice place (tabulate (to - from) (λ k. at vals.now (from + k) ⊘ m)) work.old }
{
    for (k, v) in vals[from..to].iter().enumerate() {
        work[place + k] = *v / m;
    }
}

// The quotients are written from q_at.
pub fn normalise_rows(q: CsrMatrix, mass: &[f64], work: &mut [f64], q_at: usize)
    requires valid { Valid (matrix q) }
    requires starts_value { (get_or q.starts.now 0 0 ≡ 0) × (length mass.now ≡ q.n) × (q_at + length q.vals.now ≤ length work.old) }
    ensures { work.new ≡ splice q_at (normalise (matrix q.entry) mass.now).entries work.old }
{
    for (i, m) in mass.iter().enumerate() {
        let from = q.starts[i] as usize;
        let to = q.starts[i + 1] as usize;
        divide_row(q.vals, work, q_at + from, from, to, *m);
    }
}

// With a mass, the quotients are written from q_at.
pub fn store_quotients(q: CsrMatrix, with_mass: bool, mass: &[f64], work: &mut [f64], q_at: usize)
    requires valid { Valid (matrix q) }
    requires divided { Divided (matrix q) (given with_mass mass.now) }
    requires vals_in_bounds { with_mass ≡ true → q_at + length q.vals.now ≤ length work.old }
    ensures { work.new ≡ splice q_at (stored (matrix q.entry) (given with_mass mass.now)) work.old }
{
    if with_mass {
        normalise_rows(q, mass, work, q_at);
    }
}
