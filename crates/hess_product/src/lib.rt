// The product with a small Hessenberg matrix that is stored by columns, in place, eight rows at a time.
#![tactic(auto)]

ghost use Rattle.std.specs.Prelude.{◌≡◌, map, ◌+◌, ◌-◌, ◌*◌, ◌≤◌, length};
ghost use Rattle.doubles.specs.F64.{◌⊗◌, at};
ghost use Rattle.hess_rows.specs.HessProduct.{hess_product};
ghost use Rattle.hess_rows.specs.Parts.{four_parts, put, Leading};

use hess_rows::Four;

// The sums of eight rows.
#[derive(Clone, Copy)]
struct Eight {
    upper: Four,
    lower: Four,
}

// Rows r to r + 7, side by side, so that no sum waits for the one before it.
fn eight_rows(h: &[f64], dim: usize, mx: usize, w: &[f64], r: usize, x: f64) -> Eight
    requires leading { Leading h.now dim mx }
    requires r_bound { (r + 8 ≤ mx) × (mx ≤ length w.now) }
    ensures upper_value { result.upper ≡ four_parts h.now dim x w.now r mx }
    ensures lower_value { result.lower ≡ four_parts h.now dim (at w.now (r + 3)) w.now (r + 4) mx }
{
    let from = r + 7;
    let mut s = hess_rows::four_rows(h, dim, from, w, r, x);
    let mut t = hess_rows::four_starts(h, dim, w, r + 4, w[r + 3]);
    for (k, y) in w[from..mx].iter().enumerate() {
        let p = (from + k) * dim + r;
        s = hess_rows::add_four(h, p, *y, s);
        t = hess_rows::add_four(h, p + 4, *y, t);
    }
    Eight { upper: s, lower: t }
}

// f s to places r to r + 3 of w.
fn put_four(w: &mut [f64], r: usize, f: f64, s: Four)
    requires { r + 4 ≤ length w.old }
    ensures { w.new ≡ put w.old r f s }
{
    w[r] = f * s.s0;
    w[r + 1] = f * s.s1;
    w[r + 2] = f * s.s2;
    w[r + 3] = f * s.s3;
}

// w = f H w. Row r reads nothing left of r - 1, so x, the old w there, is all that has to be kept.
pub fn hess_product_in(h: &[f64], dim: usize, mx: usize, f: f64, w: &mut [f64])
    requires leading { Leading h.now dim mx }
    requires w_len { length w.old ≡ mx }
    ensures { w.new ≡ map (λ e. f ⊗ e) (hess_product h.now dim mx w.old) }
{
    // Each row writes a place of w and reads those behind it, which an iterator over w would hold.
    let mut x = 0.0;
    let blocks = mx / 8;
    for b in 0..blocks {
        let r = 8 * b;
        let s = eight_rows(h, dim, mx, w, r, x);
        x = w[r + 7];
        put_four(w, r, f, s.upper);
        put_four(w, r + 4, f, s.lower);
    }
    for r in 8 * blocks..mx {
        let s = hess_rows::row_part(h, dim, w, r, x, mx);
        x = w[r];
        w[r] = f * s;
    }
}
