// The weighted columns of a combination: powers of tau, their sum, eta, and what 21 and 22 refuse.
// The loops are by index: j is the place and tells the vector too, so that an iterator over the places reads no plainer.
#![tactic(auto)]

ghost use Rattle.std.specs.Prelude.{◌≡◌, List, ◌+◌, ◌*◌, ◌≤◌, length, not, Float};
ghost use Rattle.std.specs.List.{list_any};
ghost use Rattle.doubles.specs.F64.{◌⊗◌, is_finite};
ghost use Rattle.checks.specs.First.{first, or_first};
ghost use Rattle.pow2.specs.Pow2.{sup};
ghost use Rattle.combination.specs.Combination.{vector, eta_of, column_places};
ghost use Rattle.combination.specs.Checks.{magnitude_checks};
ghost use Rattle.weighted_columns.specs.Inner.{share_of, powers_of, power_checks, reversed_by, weights_by, weights};

use checks::{Checked, Reason, Refusal};
use phi_action_helpers::Coupling;
use pow2::Scaling;

// sup |w_(j+1)|
fn sup_of(n: usize, further: &[f64], j: usize) -> f64
    requires { j * n + n ≤ length further.now }
    ensures { result ≡ sup (vector n further.now j) }
{
    let from = j * n;
    let to = from + n;
    pow2::sup(&further[from..to])
}

// The gain of w_(j+1), and the sum with its share.
#[derive(Clone, Copy)]
struct Share {
    gain: f64,
    sum: f64,
}

// An all-zero vector has gain 0 and no share, so that tau^(j+1) never overflows for it.
fn share_of(n: usize, further: &[f64], tau: f64, j: usize, s: f64) -> Share
    requires { (j * n + n ≤ length further.now) × (j ≤ 2) }
    ensures { result ≡ share_of n further.now tau j s }
{
    let w_sup = sup_of(n, further, j);
    if w_sup == 0.0 {
        return Share { gain: 0.0, sum: s };
    }
    let gain = power::power(tau, (j + 1) as u64);
    Share {
        gain,
        sum: s + gain * w_sup,
    }
}

// gains[j] is w_(j+1)'s, and the sum of all shares.
#[derive(Clone, Copy)]
pub struct Powers {
    pub gains: [f64; 3],
    pub sum: f64,
}

// Of w_1 to w_d.
pub fn powers_of(n: usize, further: &[f64], tau: f64, d: usize) -> Powers
    requires { (d * n ≤ length further.now) × (d ≤ 3) }
    ensures { result ≡ powers_of n further.now tau d }
{
    let mut gains = [0.0; 3];
    let mut sum = 0.0;
    for j in 0..d {
        let next = share_of(n, further, tau, j, sum);
        gains[j] = next.gain;
        sum = next.sum;
    }
    Powers { gains, sum }
}

// Some tau^(j+1) eta is not finite.
fn has_bad_gain(gains: &[f64], eta: f64) -> bool
    ensures { result ≡ list_any (λ g. not (is_finite (g ⊗ eta))) gains.now }
{
    gains.iter().any(|g| !float::is_finite(*g * eta))
}

// 21 and 22.
fn check_magnitude(sum: f64, gains: [f64; 3], d: usize, eta: f64) -> Checked
    requires { d ≤ 3 }
    ensures { result ≡ first (power_checks sum gains d eta) }
{
    if !float::is_finite(sum) {
        return Err(Refusal {
            reason: Reason::MagnitudeNotFinite,
            value: sum,
        });
    }
    if has_bad_gain(&gains[..d], eta) {
        return Err(Refusal {
            reason: Reason::GainNotFinite,
            value: float::not_a_number(),
        });
    }
    Ok(())
}

// cols[d - k] is w_k, at k - 1 of the further vectors.
fn column_places(n: usize, d: usize) -> [usize; 3]
    requires { (n ≤ 1000000) × (d ≤ 3) }
    ensures { result ≡ column_places n d }
{
    let mut places = [0usize; 3];
    for j in 0..d {
        places[j] = (d - j - 1) * n;
    }
    places
}

// gains[d - k] is w_k's gain times eta.
fn scaled_gains(powers: [f64; 3], d: usize, eta: f64) -> [f64; 3]
    requires { d ≤ 3 }
    ensures { result ≡ reversed_by powers d eta }
{
    let mut gains = [1.0; 3];
    for j in 0..d {
        gains[j] = powers[d - j - 1] * eta;
    }
    gains
}

// What 21 and 22 find: 1 / eta, and the columns with their gains.
#[derive(Clone, Copy)]
pub struct Weights {
    pub inv: f64,
    pub b: Coupling,
}

// 21, and 22 with an eta.
pub fn weigh_by(n: usize, d: usize, p: Powers, eta: Scaling) -> Result<Weights, Refusal>
    requires { (n ≤ 1000000) × (d ≤ 3) }
    ensures { (f : List Float) (tau : Float) → p ≡ powers_of n f tau d → result ≡ or_first (magnitude_checks n f tau d eta.eta) (weights_by n f tau d eta) }
{
    let powers = p.gains;
    check_magnitude(p.sum, powers, d, eta.eta)?;
    let b = Coupling {
        places: column_places(n, d),
        gains: scaled_gains(powers, d, eta.eta),
        count: d,
    };
    Ok(Weights { inv: eta.inv, b })
}

// With the job's own eta.
pub fn weigh(n: usize, further: &[f64], tau: f64, d: usize) -> Result<Weights, Refusal>
    requires { (d * n ≤ length further.now) × (n ≤ 1000000) × (d ≤ 3) }
    ensures { result ≡ or_first (magnitude_checks n further.now tau d (eta_of n further.now tau d).eta) (weights n further.now tau d) }
{
    let p = powers_of(n, further, tau, d);
    let eta = pow2::eta_scaling(p.sum);
    weigh_by(n, d, p, eta)
}
