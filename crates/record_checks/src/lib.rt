// The checks of one record of a log. The load times the level is computed value by value, so that nothing is written before a record has passed.
#![tactic(auto)]

ghost use Rattle.std.specs.Prelude.{◌≡◌, not, ◌+◌, ◌-◌, ◌≤◌, ◌<◌, length, fold};
ghost use Rattle.lists.specs.Positions.{IsPosition};
ghost use Rattle.doubles.specs.F64.{◌⊗◌, +0, at, abs, max_num, is_finite};
ghost use Rattle.vectors.specs.Vectors.{scale};
ghost use Rattle.checks.specs.First.{first, or_first};
ghost use Rattle.combination.specs.Checks.{finite_checks};
ghost use Rattle.weighted_columns.specs.Inner.{powers_of};
ghost use Rattle.ambient_checks.specs.Inner.{early_checks, record_job, record_refusals};
ghost use Rattle.combination.specs.Combination.{field_of};

use checks::{Checked, Reason, Refusal};
use generator_action::Shape;
use taylor_schedule::Job;
use weighted_columns::{Powers, Weights};

// The first place at which load x level is not finite.
fn first_bad_product(load: &[f64], level: f64) -> Option<usize>
    ensures { IsPosition (λ i. not (is_finite (at load.now i ⊗ level))) (length load.now) result }
{
    load.iter().position(|x| !float::is_finite(*x * level))
}

// 17 of load x level.
fn check_products(load: &[f64], level: f64) -> Checked
    ensures { result ≡ first (finite_checks (scale level load.now)) }
{
    if let Some(i) = first_bad_product(load, level) {
        return Err(Refusal {
            reason: Reason::VectorNotFinite,
            value: load[i] * level,
        });
    }
    Ok(())
}

// The largest magnitude of load x level.
fn sup_of_products(load: &[f64], level: f64) -> f64
    ensures { result ≡ fold (λ m x. max_num m (abs (x ⊗ level))) +0 load.now }
{
    load.iter()
        .fold(0.0, |m, x| float::max(m, float::abs(*x * level)))
}

// The weight of w_1, which is load x level, and its share of the magnitude; an all-zero vector has none.
fn powers_of_products(n: usize, load: &[f64], level: f64, duration: f64) -> Powers
    requires { length load.now ≡ n }
    ensures { result ≡ powers_of n (scale level load.now) duration 1 }
{
    let w_sup = sup_of_products(load, level);
    if w_sup == 0.0 {
        return Powers {
            gains: [0.0, 0.0, 0.0],
            sum: 0.0,
        };
    }
    Powers {
        gains: [duration, 0.0, 0.0],
        sum: 0.0 + duration * w_sup,
    }
}

// 14, and 17 of the field, then of load x level.
pub fn check_record(
    duration: f64,
    level: f64,
    initial: bool,
    field: &[f64],
    out: &[f64],
    load: &[f64],
) -> Checked
    ensures { result ≡ first (early_checks duration level (field_of initial field.now out.now) load.now) }
{
    combination::check_plan(duration, expmv::M_MAX)?;
    vector_checks::check_finite(vector_checks::field_of(initial, field, out))?;
    check_products(load, level)
}

// 21, 22 and 24 to 26 of a record. A record needs n doubles more than its combination.
pub fn admit_record(
    g: Shape,
    duration: f64,
    level: f64,
    load: &[f64],
    memory: usize,
) -> Result<Job, Refusal>
    requires { (length load.now ≡ g.n) × (g.n ≤ 1000000) × (g.stored ≤ 16777216) }
    ensures { result ≡ or_first (record_refusals g duration level load.now memory) (record_job g duration level load.now) }
{
    let p = powers_of_products(g.n, load, level, duration);
    let eta = pow2::eta_scaling(p.sum);
    let Weights { inv, b } = weighted_columns::weigh_by(g.n, 1, p, eta)?;
    let lent = memory.saturating_sub(g.n);
    taylor_schedule::plan_job(g, duration, expmv::M_MAX, 1, inv, b, lent)
}
