// The first column of the exponential of a small Hessenberg matrix, by Taylor sweeps.
#![tactic(auto)]

ghost use Rattle.std.specs.Prelude.{◌≡◌, ◌+◌, ◌*◌, ◌<◌, ◌≤◌, length};
ghost use Rattle.std.specs.List.{fold};
ghost use Rattle.lists.specs.Loop.{iter, zip_with};
ghost use Rattle.lists.specs.Window.{window};
ghost use Rattle.doubles.specs.F64.{◌⊕◌, +0, abs};
ghost use Rattle.hess_exp.specs.HessExp.{column_sum_norm, term_step, hess_sweep, hess_exp_e1};
ghost use Rattle.hess_exp.specs.Parts.{terms, small_of};
ghost use Rattle.hess_rows.specs.Parts.{Leading};

use expmv::Row;

// Whether there was a plan; its argument; and where there was one, the column in the first places.
#[derive(Drop)]
pub struct SmallExp {
    pub planned: bool,
    pub argument: f64,
    pub column: [f64; 130],
}

// The sum of the sizes in a column.
fn column_sum(column: &[f64]) -> f64
    ensures { result ≡ fold (λ s x. s ⊕ abs x) +0 column.now }
{
    column.iter().fold(0.0, |s, x| s + float::abs(*x))
}

fn column_sum_norm(h: &[f64], dim: usize, mx: usize) -> f64
    requires { Leading h.now dim mx }
    ensures { result ≡ column_sum_norm h.now dim mx }
{
    let mut m = 0.0;
    for c in 0..mx {
        let from = c * dim;
        m = float::max(m, column_sum(&h[from..from + mx]));
    }
    m
}

// y = y + w, and no zip with y.iter_mut(): of what is written through that a proof knows the length alone
fn added_in(w: &[f64], y: &mut [f64])
    requires { length w.now ≡ length y.old }
    ensures { y.new ≡ zip_with ◌⊕◌ y.old w.now }
{
    for (i, a) in y.iter_mut().enumerate() {
        *a = *a + w[i];
    }
}

// Term k + 1 of a sweep.
fn hess_term(h: &[f64], dim: usize, mx: usize, ts: f64, k: usize, y: &mut [f64], w: &mut [f64])
    requires leading { Leading h.now dim mx }
    requires y_len { (length y.old ≡ mx) × (length w.old ≡ mx) }
    requires k_bound { k < 18446744073709551615 }
    ensures { terms y.new w.new ≡ term_step h.now dim mx ts k (terms y.old w.old) }
{
    hess_product::hess_product_in(h, dim, mx, ts / float::count(k + 1), w);
    added_in(w, y);
}

// One sweep of degree deg.
fn hess_sweep(h: &[f64], dim: usize, mx: usize, ts: f64, deg: usize, y: &mut [f64], w: &mut [f64])
    requires leading { Leading h.now dim mx }
    requires y_len { (length y.old ≡ mx) × (length w.old ≡ mx) }
    ensures { y.new ≡ hess_sweep h.now dim mx ts deg y.old }
{
    vectors::copy_from(w, 0, y, 0, mx);
    // k is the term's number, by which it is divided
    for k in 0..deg {
        hess_term(h, dim, mx, ts, k, y, w);
    }
}

// s sweeps.
fn hess_sweeps(
    h: &[f64],
    dim: usize,
    mx: usize,
    ts: f64,
    deg: usize,
    s: usize,
    y: &mut [f64],
    w: &mut [f64],
)
    requires leading { Leading h.now dim mx }
    requires y_len { (length y.old ≡ mx) × (length w.old ≡ mx) }
    ensures { y.new ≡ iter (λ _ v. hess_sweep h.now dim mx ts deg v) s y.old }
{
    for _ in 0..s {
        hess_sweep(h, dim, mx, ts, deg, y, w);
    }
}

// The same on the first mx places.
fn hess_sweeps_in(
    h: &[f64],
    dim: usize,
    mx: usize,
    ts: f64,
    deg: usize,
    s: usize,
    y: &mut [f64],
    w: &mut [f64],
)
    requires leading { Leading h.now dim mx }
    requires mx_in_bounds { (mx ≤ length y.old) × (mx ≤ length w.old) }
    ensures { window 0 mx y.new ≡ iter (λ _ v. hess_sweep h.now dim mx ts deg v) s (window 0 mx y.old) }
{
    hess_sweeps(h, dim, mx, ts, deg, s, &mut y[..mx], &mut w[..mx]);
}

// e ^ (t H) e_1 for the leading mx rows and columns of h, which is stored in columns of dim.
pub fn hess_exp_e1(h: &[f64], dim: usize, mx: usize, t: f64) -> SmallExp
    requires le_mx { (1 ≤ mx) × (mx ≤ 130) }
    requires leading { Leading h.now dim mx }
    ensures result_value { small_of mx result ≡ hess_exp_e1 h.now dim mx t }
    ensures column_len { length result.column ≡ 130 }
{
    let mut y = [0.0; 130];
    let mut w = [0.0; 130];
    let arg = t * column_sum_norm(h, dim, mx);
    let plan = expmv::select_s_m(expmv::M_MAX, arg);
    let Some(Row { s, m }) = plan else {
        return SmallExp {
            planned: false,
            argument: arg,
            column: y,
        };
    };
    y[0] = 1.0;
    let ts = t / float::count(s as usize);
    hess_sweeps_in(h, dim, mx, ts, m as usize, s as usize, &mut y, &mut w);
    SmallExp {
        planned: true,
        argument: arg,
        column: y,
    }
}
