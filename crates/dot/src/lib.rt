// Inner products of dense vectors of doubles.
#![tactic(auto)]

ghost use Rattle.std.specs.Prelude.{◌≡◌, [], ◌+◌, ◌*◌, ◌/◌, ◌<◌, ◌≤◌, length};
ghost use Rattle.doubles.specs.F64.{◌⊗◌, at};
ghost use Rattle.dot.specs.Dot.{tail, lanes, dot};

// x[k] * y[k]
fn term(x: &[f64], y: &[f64], k: usize) -> f64
    requires { (k < length x.now) × (k < length y.now) }
    ensures { result ≡ at x.now k ⊗ at y.now k }
{
    x[k] * y[k]
}

// The n products from index b, added up from +0.
fn tail(x: &[f64], y: &[f64], b: usize, n: usize) -> f64
    requires { (b + n ≤ length x.now) × (b + n ≤ length y.now) }
    ensures { result ≡ tail b x.now y.now n }
{
    let mut s = 0.0;
    for (u, v) in x[b..b + n].iter().zip(&y[b..b + n]) {
        s = s + *u * *v;
    }
    s
}

// The four partial sums of an inner product.
#[derive(Clone, Copy)]
pub struct Lanes {
    pub acc0: f64,
    pub acc1: f64,
    pub acc2: f64,
    pub acc3: f64,
}

// The partial sums over `count` blocks of four more. By index: two lines cut the parts that `chunks_exact(4)` would take the blocks of.
pub fn add_blocks(x: &[f64], y: &[f64], from: usize, count: usize, acc: Lanes) -> Lanes
    requires count_in_bounds { (4 * (from + count) ≤ length x.now) × (4 * (from + count) ≤ length y.now) }
    requires acc_value { acc ≡ lanes x.now y.now from }
    ensures { result ≡ lanes x.now y.now (from + count) }
{
    let mut acc = acc;
    for j in 0..count {
        let k = 4 * (from + j);
        acc.acc0 = acc.acc0 + term(x, y, k);
        acc.acc1 = acc.acc1 + term(x, y, k + 1);
        acc.acc2 = acc.acc2 + term(x, y, k + 2);
        acc.acc3 = acc.acc3 + term(x, y, k + 3);
    }
    acc
}

// The partial sums of no block.
pub fn no_lanes() -> Lanes
    ensures { result ≡ lanes [] [] 0 }
{
    Lanes {
        acc0: 0.0,
        acc1: 0.0,
        acc2: 0.0,
        acc3: 0.0,
    }
}

// The partial sums of all whole blocks joined in pairs, then what is left over.
pub fn joined(acc: Lanes, x: &[f64], y: &[f64]) -> f64
    requires x_len { length x.now ≡ length y.now }
    requires acc_value { acc ≡ lanes x.now y.now (length x.now / 4) }
    ensures { result ≡ dot x.now y.now }
{
    let m = x.len() / 4;
    ((acc.acc0 + acc.acc1) + (acc.acc2 + acc.acc3)) + tail(x, y, 4 * m, x.len() % 4)
}

pub fn dot(x: &[f64], y: &[f64]) -> f64
    requires { length x.now ≡ length y.now }
    ensures { result ≡ dot x.now y.now }
{
    let acc = add_blocks(x, y, 0, x.len() / 4, no_lanes());
    joined(acc, x, y)
}

// Two partial sums.
#[derive(Clone, Copy)]
pub struct Pair {
    pub first: f64,
    pub second: f64,
}
