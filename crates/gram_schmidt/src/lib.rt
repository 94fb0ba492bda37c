// A product with the generator, made orthogonal to the columns before it, and its norm.
#![tactic(auto)]

ghost use Rattle.std.specs.Prelude.{◌≡◌, ◌+◌, ◌*◌, ◌≤◌, ◌<◌, length};
ghost use Rattle.lists.specs.Window.{splice};
ghost use Rattle.hess_rows.specs.HessProduct.{place};
ghost use Rattle.gram_schmidt.specs.Basis.{norm2, apply, orthogonal};
ghost use Rattle.gram_schmidt.specs.Memory.{column, behind, rest_at, Rested, setting_in, RoomFor};

use phi_action_helpers::{AugmentedOperator, Scales};

// A run's memory and what stays the same during it: M + 1 columns of n + d values from place 0, the product from the Layout's w,
// the small matrix of (M + 2) squared from h, column by column, the field of n + d from y, then the Layout's av and q.
#[derive(Clone, Copy)]
pub struct Krylov {
    pub m: usize,
    pub h: usize,
    pub y: usize,
    pub tau: f64,
    pub anorm: f64,
    pub tol: f64,
}

// A breakdown: the products made, how many columns count, and the size left out.
#[derive(Clone, Copy)]
pub struct Broken {
    pub applied: usize,
    pub mb: usize,
    pub hn: f64,
}

// M + 1 columns: the products made, and the norm of the last one.
#[derive(Clone, Copy)]
pub struct Full {
    pub applied: usize,
    pub avnorm: f64,
}

pub fn norm2(x: &[f64]) -> f64
    ensures { result ≡ norm2 x.now }
{
    sqrt::sqrt(dot::dot(x, x))
}

// The product of column j: `Augmented::apply` of the Rust.
pub fn apply_in(o: AugmentedOperator, work: &mut [f64], k: Krylov, j: usize)
    requires room { RoomFor o k work.old }
    requires j_le_m { j ≤ k.m }
    ensures { work.new ≡ splice o.entry.l.w (apply (setting_in o.entry k work.old) (column (o.entry.l.n + o.entry.l.d) work.old j)) work.old }
{
    let len = o.l.n + o.l.d;
    let s = Scales {
        shifted: false,
        tau: k.tau,
        one: 1.0,
        mu: 0.0,
    };
    phi_action_helpers::aug_product(o, work, s, j * len);
}

// z less its parts along columns 0 to j, whose sizes go to column j of h: one pass of modified Gram-Schmidt. Each part is taken away
// in the loop that finds the next size.
fn orthogonal(work: &mut [f64], z_at: usize, h_at: usize, dim: usize, len: usize, j: usize)
    requires len_bound { j * len + len ≤ z_at }
    requires len_bound_2 { z_at + len ≤ h_at }
    requires dim_in_bounds { h_at + dim * dim ≤ length work.old }
    requires j_lt_dim { j < dim }
    ensures { work.new ≡ behind z_at h_at (orthogonal (column len work.old) dim j (j + 1) (rest_at len z_at h_at dim work.old)) work.old }
{
    let z_end = z_at + len;
    let s = &work[..];
    let mut c = dot::dot(&s[z_at..z_end], &s[0..len]);
    // z, the columns and h lie in one lent slice, of which the kernels take places: i counts those
    for i in 0..j {
        let at = i * len;
        let e = j * dim + i;
        work[h_at + e] = c;
        c = axpy_dot::axpy_dot_in(work, z_at, at, at + len, len, -c);
    }
    let e = j * dim + j;
    work[h_at + e] = c;
    vectors::axpy_in(work, z_at, j * len, len, -c);
}

// The product of column j, orthogonal to columns 0 to j.
pub fn rest_in(o: AugmentedOperator, work: &mut [f64], k: Krylov, j: usize)
    requires room { RoomFor o k work.old }
    requires j_le_m { j ≤ k.m }
    ensures { Rested o.entry.l k (setting_in o.entry k work.old) j work.old work.new }
{
    apply_in(o, work, k, j);
    orthogonal(work, o.l.w, k.h, k.m + 2, o.l.n + o.l.d, j);
}
