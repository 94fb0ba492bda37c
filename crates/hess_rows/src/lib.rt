// One row, and four rows side by side, of the product with a small Hessenberg matrix that is stored by columns.
#![tactic(auto)]

ghost use Rattle.std.specs.Prelude.{◌≡◌, ◌+◌, ◌-◌, ◌*◌, ◌<◌, ◌≤◌, length};
ghost use Rattle.doubles.specs.F64.{at};
ghost use Rattle.hess_rows.specs.Parts.{left_product, row_part, four_parts, added, Leading};

// What row r takes from column r - 1, x being w there; row 0 has no such column.
fn left_product(h: &[f64], dim: usize, r: usize, x: f64) -> f64
    requires { 0 < r → (r - 1) * dim + r < length h.now }
    ensures { result ≡ left_product h.now dim x r }
{
    if r == 0 {
        return 0.0;
    }
    0.0 + h[(r - 1) * dim + r] * x
}

// Row r of H w up to column `to`, x being w at r - 1: nothing left of place r is read.
// The entries by their places, here and below: with chunks_exact(dim) for the columns the product takes 1.1 times as long.
pub fn row_part(h: &[f64], dim: usize, w: &[f64], r: usize, x: f64, to: usize) -> f64
    requires leading { Leading h.now dim to }
    requires r_le_to { (r ≤ to) × (r < dim) × (to ≤ length w.now) }
    ensures { result ≡ row_part h.now dim x w.now r to }
{
    let mut s = left_product(h, dim, r, x);
    for (k, y) in w[r..to].iter().enumerate() {
        s = s + h[(r + k) * dim + r] * *y;
    }
    s
}

// The sums of four rows.
#[derive(Clone, Copy)]
pub struct Four {
    pub s0: f64,
    pub s1: f64,
    pub s2: f64,
    pub s3: f64,
}

// Rows r to r + 3 of H w up to column r + 3, x being w at r - 1.
pub fn four_starts(h: &[f64], dim: usize, w: &[f64], r: usize, x: f64) -> Four
    requires leading { Leading h.now dim (r + 3) }
    requires r_bound { (r + 4 ≤ dim) × (r + 3 ≤ length w.now) }
    ensures { result ≡ four_parts h.now dim x w.now r (r + 3) }
{
    let to = r + 3;
    Four {
        s0: row_part(h, dim, w, r, x, to),
        s1: row_part(h, dim, w, r + 1, w[r], to),
        s2: row_part(h, dim, w, r + 2, w[r + 1], to),
        s3: row_part(h, dim, w, r + 3, w[r + 2], to),
    }
}

// One column more: its four entries, from place p on, times y.
pub fn add_four(h: &[f64], p: usize, y: f64, s: Four) -> Four
    requires { p + 4 ≤ length h.now }
    ensures { result ≡ added h.now p y s }
{
    Four {
        s0: s.s0 + h[p] * y,
        s1: s.s1 + h[p + 1] * y,
        s2: s.s2 + h[p + 2] * y,
        s3: s.s3 + h[p + 3] * y,
    }
}

// Rows r to r + 3 up to column `to`.
pub fn four_rows(h: &[f64], dim: usize, to: usize, w: &[f64], r: usize, x: f64) -> Four
    requires leading { Leading h.now dim to }
    requires r_bound { (r + 4 ≤ dim) × (r + 3 ≤ to) × (to ≤ length w.now) }
    ensures { result ≡ four_parts h.now dim x w.now r to }
{
    let from = r + 3;
    let mut s = four_starts(h, dim, w, r, x);
    for (k, y) in w[from..to].iter().enumerate() {
        s = add_four(h, (from + k) * dim + r, *y, s);
    }
    s
}
