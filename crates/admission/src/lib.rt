// The checks of a combination and of an action, one by one, behind those of the generator.
#![tactic(auto)]

ghost use Rattle.std.specs.Prelude.{◌≡◌, ◌*◌, ◌≤◌, length};
ghost use Rattle.checks.specs.First.{or_first};
ghost use Rattle.taylor_schedule.specs.Inner.{combination_job, combination_refusals, one_column, action_job, action_refusals};

use checks::Refusal;
use generator_action::Shape;
use phi_action_helpers::Coupling;
use taylor_schedule::Job;
use weighted_columns::Weights;

// 21, 22 and 24 to 26 of a combination.
pub fn admit_combination(
    g: Shape,
    tau: f64,
    cap: u32,
    d: usize,
    further: &[f64],
    memory: usize,
) -> Result<Job, Refusal>
    requires { (d * g.n ≤ length further.now) × (g.n ≤ 1000000) × (d ≤ 3) × (g.stored ≤ 16777216) }
    ensures { result ≡ or_first (combination_refusals g tau cap d further.now memory) (combination_job g tau cap d further.now) }
{
    let Weights { inv, b } = weighted_columns::weigh(g.n, further, tau, d)?;
    taylor_schedule::plan_job(g, tau, cap, d, inv, b, memory)
}

// An action has one column, v.
fn one_column(eta: f64) -> Coupling
    ensures { result ≡ one_column eta }
{
    Coupling {
        places: [0, 0, 0],
        gains: [eta, 1.0, 1.0],
        count: 1,
    }
}

// 13 to 17, 33 behind 14, and 24 to 26 of an action of n values.
pub fn admit_action(
    g: Shape,
    tau: f64,
    cap: u32,
    k: usize,
    v: &[f64],
    output: usize,
    wanted: usize,
    memory: usize,
) -> Result<Job, Refusal>
    requires { (g.n ≤ 1000000) × (g.stored ≤ 16777216) }
    ensures { result ≡ or_first (action_refusals g tau cap k v.now output wanted memory) (action_job g tau cap v.now) }
{
    combination::check_index(k)?;
    combination::check_plan(tau, cap)?;
    vector_checks::check_lengths(output, wanted, v.len(), g.n)?;
    vector_checks::check_finite(v)?;
    let eta = pow2::eta_scaling(pow2::sup(v));
    let b = one_column(eta.eta);
    taylor_schedule::plan_job(g, tau, cap, 3, eta.inv, b, memory)
}
