// A power with a whole exponent, and the root of a whole order.
#![tactic(auto)]

ghost use Rattle.std.specs.Prelude.{◌≡◌, ◌+◌, ◌<◌, T};
ghost use Rattle.lists.specs.Greatest.{greatest};
ghost use Rattle.doubles.specs.F64.{INF_BITS, nonneg};
ghost use Rattle.power.specs.Power.{power, within, root};

use doubles::{INF_BITS, ONE_BITS};

// q factors y, multiplied left to right; one factor for q = 0 too.
pub fn power(y: f64, q: u64) -> f64
    ensures { result ≡ power y q }
{
    let mut p = y;
    for _ in 1..q {
        p *= y;
    }
    p
}

// `log2_normal`, `log2` and `exp2` stand in for the library's methods, which call the C library, say nothing of their
// results and would have to be linked.

// The logarithm to the base 2 of a normal x above 0, to nine digits. That of the significand m is
// 1/2 + 2 / ln 2 * (s + s^3 / 3 + s^5 / 5 + ..) with s = (m - √2) / (m + √2). The field of the exponent becomes
// a double as the last digits of one from 2^52 up.
fn log2_normal(x: f64) -> f64 {
    if x > 0.0 {
        let b = x.to_bits();
        let e = f64::from_bits(0x4330_0000_0000_0000 + b / 0x10_0000_0000_0000 % 2048)
            - 4503599627371519.0;
        let m = f64::from_bits(ONE_BITS + b % 0x10_0000_0000_0000);
        let s = (m - 1.4142135623730951) / (m + 1.4142135623730951);
        let w = s * s;
        let series = 1.0 + w * (1.0 / 3.0 + w * (1.0 / 5.0 + w * (1.0 / 7.0 + w * (1.0 / 9.0))));
        return e + 0.5 + 2.8853900817779268 * s * series;
    }
    x
}

// The same of any finite t above 0: a subnormal is scaled by 2^54.
fn log2(t: f64) -> f64 {
    if t < f64::MIN_POSITIVE {
        return log2_normal(t * 18014398509481984.0) - 54.0;
    }
    log2_normal(t)
}

// 2 to the power z, to nine digits, for a z from -1022 to 1023. The last digits of z + 1.5 * 2^52 + 1023 are the
// whole number nearest to z, plus 1023: the field of the exponent. What z has beyond it goes by the exponential series.
fn exp2(z: f64) -> f64 {
    let shifted = z + 6755399441056767.0;
    if shifted > 0.0 {
        let scale = f64::from_bits(shifted.to_bits() % 2048 * 0x10_0000_0000_0000);
        let x = (z - (shifted - 6755399441056767.0)) * 0.6931471805599453;
        let high = 1.0 / 120.0 + x * (1.0 / 720.0 + x * (1.0 / 5040.0 + x * (1.0 / 40320.0)));
        return scale
            * (1.0 + x * (1.0 + x * (1.0 / 2.0 + x * (1.0 / 6.0 + x * (1.0 / 24.0 + x * high)))));
    }
    z
}

// Where the search for the root begins: 2 to the power log2(t) / q, and one step of Newton's method, which is
// for nearly every normal t the root or the pattern next to it. Any pattern would do; a near one saves products.
fn first_guess(t: f64, q: u64) -> u64
    ensures { (0 < result) × (result < INF_BITS) }
{
    let order = std::num::nearest_u64_to_f64(q);
    let y = exp2(log2(t) / order);
    let next = y + y * ((t / power(y, q) - 1.0) / order);
    if next > 0.0 {
        let b = next.to_bits();
        if 0 < b && b < INF_BITS {
            return b;
        }
    }
    ONE_BITS
}

// A pattern between lo and hi, where there is one: `step` above lo, or below hi, or the middle where that is
// not between.
fn next_trial(lo: u64, hi: u64, step: u64, up: bool) -> u64
    requires { (lo < hi) × (0 < step) }
    ensures { lo + 1 < hi → (lo < result) × (result < hi) }
{
    if step < hi - lo {
        if up {
            return lo + step;
        }
        return hi - step;
    }
    lo + (hi - lo) / 2
}

// The length of the step after this one.
fn longer(step: u64) -> u64
    ensures { 0 < result }
{
    if step < 0x400_0000_0000_0000 {
        return step * 8 + 1;
    }
    step
}

// The pattern of the root of a finite t above 0. lo is always within and hi is not. The trials begin at a near
// pattern and go on in growing steps until they pass the root; then each halves what is left between.
fn root_bits(t: f64, q: u64) -> u64
    requires { T (nonneg t) }
    ensures { (result ≡ greatest (within t q) 63 0) × (result < INF_BITS) }
{
    let mut lo = 0u64;
    let mut hi = INF_BITS;
    let mut trial = first_guess(t, q);
    let mut step = 0u64;
    while lo + 1 < hi {
        step = longer(step);
        let up = power(f64::from_bits(trial), q) <= t;
        if up {
            lo = trial;
        } else {
            hi = trial;
        }
        trial = next_trial(lo, hi, step, up);
    }
    lo
}

pub fn root(t: f64, q: u64) -> f64
    ensures { result ≡ root t q }
{
    if t == 0.0 {
        return 0.0;
    }
    if t > 0.0 {
        if t < f64::INFINITY {
            return f64::from_bits(root_bits(t, q));
        }
        return t;
    }
    f64::NAN
}
