// Powers of two that scale exactly, total on every double.
#![tactic(auto)]

ghost use Rattle.std.specs.Prelude.{◌≡◌, ◌<◌, T, pos, negsuc};
ghost use Rattle.std.specs.Int.Signed.{mag};
ghost use Rattle.doubles.specs.F64.{◌⋖◌, +0};
ghost use Rattle.pow2.specs.Pow2.{clamp, field, ceil_log2, exact_pow2, eta_scaling, sup, pow2_f64, usable, factors, exponent, scale_of, pow2_scale};

use float::{abs, is_finite, max};

// The exponents of eta and of 1 / eta stay within this, so that both are normal.
const ETA_EXP_CLAMP: i32 = 1000;

// (eta, 1 / eta)
#[derive(Clone, Copy)]
pub struct Scaling {
    pub eta: f64,
    pub inv: f64,
}

// (2 ^ -e, 2 ^ e)
#[derive(Clone, Copy)]
pub struct Scale {
    pub down: f64,
    pub up: f64,
}

// The exponent's field of a bit pattern.
fn field(bits: u64) -> i32
    ensures { result ≡ pos (field bits) }
{
    ((bits >> 52) % 2048) as i32
}

// The bits of a NaN are not defined, but its field is 2047 and its digits are not 0.
pub fn ceil_log2(x: f64) -> i32
    ensures { result ≡ ceil_log2 x }
{
    if x.is_nan() {
        return 1025;
    }
    let bits = f64::to_bits(x);
    let field = field(bits);
    if field == 0 {
        return -ETA_EXP_CLAMP;
    }
    let exp = field - 1023;
    if bits % 0x10_0000_0000_0000 == 0 {
        return exp;
    }
    exp + 1
}

// 2 ^ e for e from -1022 up and below 1022.
fn exact_pow2(e: i32) -> f64
    requires { mag e < 1022 }
    ensures { result ≡ exact_pow2 e }
{
    f64::from_bits(((1023 + e) as u64) << 52)
}

pub fn eta_scaling(max_mag: f64) -> Scaling
    ensures { result ≡ eta_scaling max_mag }
{
    if max_mag > 0.0 && is_finite(max_mag) {
        let e = ceil_log2(max_mag).clamp(-ETA_EXP_CLAMP, ETA_EXP_CLAMP);
        return Scaling {
            eta: exact_pow2(-e),
            inv: exact_pow2(e),
        };
    }
    Scaling { eta: 1.0, inv: 1.0 }
}

// The largest magnitude; a NaN is dropped.
pub fn sup(x: &[f64]) -> f64
    ensures { result ≡ sup x.now }
{
    let mut m = 0.0;
    for v in x {
        m = max(m, abs(*v));
    }
    m
}

// 2 ^ k, rounded, for k from -2042 up and below 2042: a product of two exact powers.
fn pow2_f64(k: i32) -> f64
    requires { mag k < 2042 }
    ensures { result ≡ pow2_f64 k }
{
    let half = k / 2;
    exact_pow2(half) * exact_pow2(k - half)
}

#[tactic(auto, unfolding(crate::specs::Pow2::usable))]
fn usable(x: f64) -> bool
    ensures { result ≡ usable x }
{
    is_finite(x) && x != 0.0
}

// (2 ^ -e, 2 ^ e) where both are finite and not 0.
fn factors(e: i32) -> Option<Scale>
    requires { mag e < 2041 }
    ensures { result ≡ factors e }
{
    let down = pow2_f64(-e);
    let up = pow2_f64(e);
    (usable(down) && usable(up)).then_some(Scale { down, up })
}

// The exponent of the leading digit. A subnormal is multiplied by 2 ^ 54 first, which is exact and makes it normal.
fn exponent(mag: f64) -> i32
    requires { T (+0 ⋖ mag) }
    ensures { result ≡ exponent mag }
{
    let normal = field(f64::to_bits(mag));
    if normal == 0 {
        return field(f64::to_bits(mag * 18014398509481984.0)) - 1023 - 54;
    }
    normal - 1023
}

// The factors of the exponent nearest to exp, from exp toward 0, that has both.
fn walk(exp: i32) -> Scale
    requires { mag exp < 2040 }
    ensures { result ≡ scale_of (clamp exp (negsuc 1022) (pos 1023)) }
{
    let mut e = exp;
    while e != 0 {
        if let Some(pair) = factors(e) {
            return pair;
        }
        e -= e.signum();
    }
    Scale { down: 1.0, up: 1.0 }
}

// Total: an infinity has the exponent 1024, from which the walk goes to 1023, and a NaN is dropped by `sup`.
pub fn pow2_scale(rhs: &[f64]) -> Option<Scale>
    ensures { result ≡ pow2_scale rhs.now }
{
    let bmax = sup(rhs);
    if bmax == 0.0 {
        return None;
    }
    Some(walk(exponent(bmax)))
}
