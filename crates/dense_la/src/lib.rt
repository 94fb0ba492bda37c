// The exponential of a double by scaling and squaring, as `dense_exp` of the Rust's dense_la.rs computes it of a 1 × 1 matrix with h = 1.
#![tactic(auto)]

ghost use Rattle.std.specs.Prelude.{◌≡◌};
ghost use Rattle.dense_la.specs.DenseExp.{matmul, norm, squarings, scale, series, squared, dense_exp};

// The product of two 1 × 1 matrices.
fn matmul(a: f64, b: f64) -> f64
    ensures { result ≡ matmul a b }
{
    0.0 + a * b
}

// The largest column sum of |c h|.
#[tactic(auto, using(doubles::proofs::Library::abs_is), unfolding(crate::specs::DenseExp::norm))]
fn norm(c: f64) -> f64
    ensures { result ≡ norm c }
{
    let sum = 0.0 + (c * 1.0).abs();
    if sum > 0.0 { sum } else { 0.0 }
}

// How often the scale is halved, and what it is then.
#[derive(Clone, Copy)]
struct Scaling {
    squarings: u32,
    scale: f64,
}

fn halvings(norm: f64) -> Scaling
    ensures { (result.squarings ≡ squarings norm) × (result.scale ≡ scale (squarings norm)) }
{
    let mut squarings = 0u32;
    let mut scale = 1.0;
    while norm * scale > 0.5 && squarings < 1100 {
        scale *= 0.5;
        squarings += 1;
    }
    Scaling { squarings, scale }
}

// The terms of the series of e ^ a up to a ^ 18 / 18!, added up.
fn series(a: f64) -> f64
    ensures { result ≡ (series a 18).result }
{
    let mut result = 1.0;
    let mut term = 1.0;
    // d is what a term is divided by
    for d in 1..=18u32 {
        term = matmul(term, a) * (1.0 / d as f64);
        result += term;
    }
    result
}

// y ^ (2 ^ n)
fn squared(n: u32, y: f64) -> f64
    ensures { result ≡ squared n y }
{
    let mut result = y;
    for _ in 0..n {
        result = matmul(result, result);
    }
    result
}

// e ^ c
pub fn dense_exp(c: f64) -> f64
    ensures { result ≡ dense_exp c }
{
    let s = halvings(norm(c));
    let a = c * 1.0 * s.scale;
    squared(s.squarings, series(a))
}
