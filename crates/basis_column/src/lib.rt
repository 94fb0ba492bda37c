// One more column of the basis, or the breakdown.
#![tactic(auto)]

ghost use Rattle.std.specs.Prelude.{◌≡◌, List, ℕ, ◌+◌, ◌*◌, ◌≤◌, ◌<◌, length, set, Float};
ghost use Rattle.lists.specs.Window.{window, splice};
ghost use Rattle.doubles.specs.F64.{◌⊘◌, 1f};
ghost use Rattle.vectors.specs.Vectors.{scale};
ghost use Rattle.hess_rows.specs.HessProduct.{place};
ghost use Rattle.general_operator.specs.Csr.{csr};
ghost use Rattle.phi_action_helpers.specs.declared.Coupling.{Coupling};
ghost use Rattle.gram_schmidt.specs.Basis.{norm2, broken, arnoldi_step};
ghost use Rattle.gram_schmidt.specs.Memory.{setting_at, Spared, column, behind, columns_at, grown_at, Within, setting_in, RoomFor};

use gram_schmidt::{Broken, Krylov};
use phi_action_helpers::{AugmentedOperator, Coupling, Layout};

// A column whose norm is at most this part of the matrix's norm is at round-off level.
const BREAKDOWN: f64 = 1e-12;

// hn is at round-off level, and the basis spans the whole space or leaving hn out stays within tol.
fn breaks(l: Layout, k: Krylov, beta: f64, j: usize, hn: f64) -> bool
    requires { (j < k.m) × (l.n + l.d ≤ 18446744073709551615) }
    ensures { (b : Coupling) (starts cols : List ℕ) (entries vectors : List Float) → result ≡ broken (setting_at l b k (csr l.n starts cols entries) vectors) beta j hn }
{
    hn <= BREAKDOWN * float::max(k.anorm, 1.0) && (j + 1 == l.n + l.d || hn * beta <= k.tol)
}

// One more column: hn goes below the diagonal of h, and z by 1 / hn behind the columns.
fn push(work: &mut [f64], z_at: usize, h_at: usize, dim: usize, len: usize, j: usize, hn: f64)
    requires len_bound { (j + 1) * len + len ≤ z_at }
    requires len_bound_2 { z_at + len ≤ h_at }
    requires dim_in_bounds { h_at + dim * dim ≤ length work.old }
    requires j_bound { j + 1 < dim }
    ensures { work.new ≡ splice ((j + 1) * len) (scale (1f ⊘ hn) (window z_at len work.old)) (set work.old (h_at + place dim (j + 1) j) hn) }
{
    let c = j + 1;
    let e = j * dim + c;
    work[h_at + e] = hn;
    vectors::scaled_in(work, c * len, z_at, len, 1.0 / hn);
}

// Turn j: column j + 1, and the products made; or a breakdown.
pub fn grow(
    o: AugmentedOperator,
    work: &mut [f64],
    k: Krylov,
    beta: f64,
    j: usize,
    applied: usize,
) -> Result<usize, Broken>
    requires room { RoomFor o k work.old }
    requires j_lt_m { (j < k.m) × (applied ≤ j) }
    ensures work_after { grown_at o.entry.l k (j + 1) result work.new ≡ arnoldi_step (setting_in o.entry k work.old) beta j (columns_at o.entry.l k (j + 1) applied work.old) }
    ensures within { Within (j + 1) result × Spared o.entry.l k work.old work.new }
{
    let z = o.l.w;
    let len = o.l.n + o.l.d;
    let end = z + len;
    gram_schmidt::rest_in(o, work, k, j);
    let hn = gram_schmidt::norm2(&work[z..end]);
    if breaks(o.l, k, beta, j, hn) {
        return Err(Broken {
            applied: applied + 1,
            mb: j + 1,
            hn,
        });
    }
    push(work, z, k.h, k.m + 2, len, j, hn);
    Ok(applied + 1)
}
