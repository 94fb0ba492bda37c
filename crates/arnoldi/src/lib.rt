// The Arnoldi basis of one substep.
#![tactic(auto)]

ghost use Rattle.std.specs.Prelude.{◌≡◌, ◌+◌, ◌*◌, ◌≤◌, length, replicate};
ghost use Rattle.lists.specs.Walk.{on, walk};
ghost use Rattle.lists.specs.Window.{window, splice};
ghost use Rattle.doubles.specs.F64.{◌⊘◌, +0, 1f};
ghost use Rattle.vectors.specs.Vectors.{scale};
ghost use Rattle.gram_schmidt.specs.Basis.{norm2, arnoldi_step, arnoldi};
ghost use Rattle.gram_schmidt.specs.Memory.{Spared, column, columns_at, grown_at, Within, basis_at, Counted, Ended, setting_in, RoomFor};

use gram_schmidt::{Broken, Full, Krylov};
use phi_action_helpers::AugmentedOperator;

// At most M turns: the products made.
fn columns(o: AugmentedOperator, work: &mut [f64], k: Krylov, beta: f64) -> Result<usize, Broken>
    requires { RoomFor o k work.old }
    ensures work_after { grown_at o.entry.l k k.m result work.new ≡ walk (arnoldi_step (setting_in o.entry k work.old) beta) k.m 0 (on (columns_at o.entry.l k 1 0 work.old)) }
    ensures within { Within k.m result × Spared o.entry.l k work.old work.new }
{
    let m = k.m;
    let mut applied = 0;
    // j is the column's number, which a step takes; no place is counted
    for j in 0..m {
        applied = basis_column::grow(o, work, k, beta, j, applied)?;
    }
    Ok(applied)
}

// h at +0, and the first column: y by 1 / beta.
fn begin(work: &mut [f64], h_at: usize, dim: usize, y_at: usize, len: usize, beta: f64)
    requires len_le_h_at { len ≤ h_at }
    requires dim_bound { h_at + dim * dim ≤ y_at }
    requires len_in_bounds { y_at + len ≤ length work.old }
    ensures { work.new ≡ splice 0 (scale (1f ⊘ beta) (window y_at len work.old)) (splice h_at (replicate (dim * dim) +0) work.old) }
{
    let end = h_at + dim * dim;
    vectors::clear(&mut work[h_at..end]);
    vectors::scaled_in(work, 0, y_at, len, 1.0 / beta);
}

// Without a breakdown one more product, for the error estimate, and its norm.
fn end(o: AugmentedOperator, work: &mut [f64], k: Krylov) -> f64
    requires { RoomFor o k work.old }
    ensures { Ended o.entry.l k (setting_in o.entry k work.old) work.old work.new result }
{
    let m = k.m;
    let z = o.l.w;
    let end = z + (o.l.n + o.l.d);
    work[k.h + (m * (m + 2) + (m + 1))] = 1.0;
    gram_schmidt::apply_in(o, work, k, m);
    gram_schmidt::norm2(&work[z..end])
}

// The basis of one substep from the field at y, whose norm is beta.
pub fn arnoldi(o: AugmentedOperator, work: &mut [f64], k: Krylov, beta: f64) -> Result<Full, Broken>
    requires { RoomFor o k work.old }
    ensures work_after { basis_at o.entry.l k result work.new ≡ arnoldi (setting_in o.entry k work.old) (window k.y (o.entry.l.n + o.entry.l.d) work.old) beta }
    ensures counted { Counted k.m result × Spared o.entry.l k work.old work.new }
{
    begin(work, k.h, k.m + 2, k.y, o.l.n + o.l.d, beta);
    let applied = columns(o, work, k, beta)?;
    let avnorm = end(o, work, k);
    Ok(Full {
        applied: applied + 1,
        avnorm,
    })
}
