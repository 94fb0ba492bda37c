// What a job takes from the transposed generator, after every check of the matrix.
#![tactic(auto)]

ghost use Rattle.std.specs.Prelude.{◌≡◌};
ghost use Rattle.checks.specs.First.{first};
ghost use Rattle.general_operator.specs.Csr.{csr};
ghost use Rattle.generator_action.specs.Mass.{given};
ghost use Rattle.transpose.specs.Transpose.{buffers, lengths, buffers_after, transposed_checks};
ghost use Rattle.transposed_shape.specs.Inner.{shape_answer};

use checks::Refusal;
use generator_action::Shape;

// Every check of the matrix. The transposed generator has no mass; a job over it needs the working memory of the forward one.
pub fn transposed_shape(
    n: usize,
    starts: &[u32],
    cols: &[u32],
    vals: &[f64],
    with_mass: bool,
    mass: &[f64],
    t_starts: &mut [u32],
    t_cols: &mut [u32],
    t_vals: &mut [f64],
) -> Result<Shape, Refusal>
    ensures value { result ≡ shape_answer (csr n starts.now cols.now vals.now) (given with_mass mass.now) (first (transposed_checks (csr n starts.now cols.now vals.now) (given with_mass mass.now) (lengths (buffers t_starts.old t_cols.old t_vals.old)))) }
    ensures t_vals_after { buffers t_starts.new t_cols.new t_vals.new ≡ buffers_after (csr n starts.now cols.now vals.now) (given with_mass mass.now) (buffers t_starts.old t_cols.old t_vals.old) }
{
    let matrix = transposed_checks::check_transposed(
        n, starts, cols, vals, with_mass, mass, t_starts, t_cols, t_vals,
    )?;
    let forward = generator_action::generator_shape(n, with_mass, vals.len(), matrix.norm);
    Ok(Shape {
        n,
        with_mass: false,
        stored: forward.stored,
        norm: matrix.norm,
    })
}
