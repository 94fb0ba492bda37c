// The diagonal shift of a generator: the midpoint of its Gershgorin hull, where that lowers the norm.
#![tactic(auto)]

ghost use Rattle.std.specs.Prelude.{◌≡◌, ◌<◌};
ghost use Rattle.lists.specs.Find.{exists};
ghost use Rattle.general_operator.specs.Csr.{Valid};
ghost use Rattle.general_operator.specs.Matrix.{matrix};
ghost use Rattle.csr_shift.specs.Shift.{csr_row, generator_row, bad_row, midpoint, shifted_norm, worth, negated_csr_shift};

use general_operator::CsrMatrix;

// The diagonal of a row, and the sum of its other entries' sizes.
#[derive(Clone, Copy)]
pub struct Row {
    pub diagonal: f64,
    pub rest: f64,
}

// The shift, and the norm of the shifted generator.
#[derive(Clone, Copy)]
pub struct Shifted {
    pub mu: f64,
    pub norm: f64,
}

// Row i of Q. Entries that share the diagonal's place are summed.
fn csr_row(q: CsrMatrix, i: usize) -> Row
    requires valid { Valid (matrix q) }
    requires i_lt_n { i < q.n }
    ensures { result ≡ csr_row (matrix q.entry) i }
{
    let from = q.starts[i] as usize;
    let to = q.starts[i + 1] as usize;
    let mut diagonal = 0.0;
    let mut rest = 0.0;
    for (c, v) in q.cols[from..to].iter().zip(&q.vals[from..to]) {
        if *c as usize == i {
            diagonal += *v;
        } else {
            rest += float::abs(*v);
        }
    }
    Row { diagonal, rest }
}

// Row i of G = -Q.
fn generator_row(q: CsrMatrix, i: usize) -> Row
    requires valid { Valid (matrix q) }
    requires i_lt_n { i < q.n }
    ensures { result ≡ generator_row (matrix q.entry) i }
{
    let row = csr_row(q, i);
    Row {
        diagonal: -row.diagonal,
        ..row
    }
}

fn is_bad_row(q: CsrMatrix, i: usize) -> bool
    requires valid { Valid (matrix q) }
    requires i_lt_n { i < q.n }
    ensures { result ≡ bad_row (generator_row (matrix q.entry)) i }
{
    let g = generator_row(q, i);
    g.diagonal.is_nan() || g.rest.is_nan()
}

// Whether a row has a NaN.
fn has_bad_row(q: CsrMatrix) -> bool
    requires { Valid (matrix q) }
    ensures { result ≡ exists (bad_row (generator_row (matrix q.entry))) q.entry.n }
{
    (0..q.n).any(|i| is_bad_row(q, i))
}

// The midpoint of the hull. The halves are taken before the sum, which could overflow.
fn midpoint(q: CsrMatrix) -> f64
    requires { Valid (matrix q) }
    ensures { result ≡ midpoint (generator_row (matrix q.entry)) q.entry.n }
{
    // Both ends in one pass: a fold of the pair is no plainer.
    let mut high = f64::NEG_INFINITY;
    let mut low = f64::INFINITY;
    for i in 0..q.n {
        let g = generator_row(q, i);
        high = float::max(high, g.diagonal + g.rest);
        low = float::min(low, g.diagonal - g.rest);
    }
    0.5 * high + 0.5 * low
}

// The largest row sum of G - mu.
fn shifted_norm(q: CsrMatrix, mu: f64) -> f64
    requires { Valid (matrix q) }
    ensures { result ≡ shifted_norm (generator_row (matrix q.entry)) q.entry.n mu }
{
    (0..q.n).fold(0.0, |norm, i| {
        let g = generator_row(q, i);
        float::max(norm, float::abs(g.diagonal - mu) + g.rest)
    })
}

fn worth(mu: f64, norm: f64, bound: f64) -> bool
    ensures { result ≡ worth mu norm bound }
{
    mu != 0.0 && float::is_finite(mu) && float::is_finite(norm) && norm < bound
}

// The shift of G, or none where it does not lower the norm below `bound`. A row with a NaN is looked for first: max and min would skip it.
pub fn negated_csr_shift(q: CsrMatrix, bound: f64) -> Option<Shifted>
    requires { Valid (matrix q) }
    ensures { result ≡ negated_csr_shift (matrix q.entry) bound }
{
    if has_bad_row(q) {
        return None;
    }
    let mu = midpoint(q);
    let norm = shifted_norm(q, mu);
    worth(mu, norm, bound).then_some(Shifted { mu, norm })
}
