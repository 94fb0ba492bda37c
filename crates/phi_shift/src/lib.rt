// The sweep plan: unshifted, or shifted where that costs strictly less.
#![tactic(auto)]

ghost use Rattle.std.specs.Prelude.{◌≡◌};
ghost use Rattle.general_operator.specs.Csr.{Valid};
ghost use Rattle.general_operator.specs.Matrix.{matrix};
ghost use Rattle.phi_shift.specs.Plan.{plan, argument, shifted_bound, cheaper_shifted, usable, with_shift, sweep_plan};

use csr_shift::Shifted;
use expmv::Row;
use general_operator::CsrMatrix;
use phi_action_helpers::SweepPlan;

// (tau norm + 2) 2
pub fn argument(tau: f64, norm: f64) -> f64
    ensures { result ≡ argument tau norm }
{
    (tau * norm + 2.0) * 2.0
}

fn shifted_bound(tau: f64, mu: f64, norm: f64) -> f64
    ensures { result ≡ shifted_bound tau mu norm }
{
    float::max(tau * norm, float::abs(mu)) + 2.0
}

fn usable(tau: f64, mu: f64, norm: f64) -> bool
    ensures { result ≡ usable tau mu norm }
{
    mu != 0.0
        && float::is_finite(mu)
        && float::is_finite(norm)
        && 0.0 <= norm
        && float::is_finite(shifted_bound(tau, mu, norm))
}

fn plan(row: Row, mu: f64) -> SweepPlan
    ensures { result ≡ plan row.s row.m mu }
{
    let Row { s, m } = row;
    SweepPlan { s, m, mu }
}

// The shifted row only where it costs strictly less.
fn cheaper_shifted(row: Row, mu: f64, shifted: Option<Row>) -> SweepPlan
    ensures { result ≡ cheaper_shifted row mu shifted }
{
    let Some(shifted) = shifted else {
        return plan(row, 0.0);
    };
    if shifted.cost() < row.cost() {
        return plan(shifted, mu);
    }
    plan(row, 0.0)
}

pub fn with_shift(m_max: u32, tau: f64, row: Row, shift: Option<Shifted>) -> SweepPlan
    ensures { result ≡ with_shift m_max tau row shift }
{
    let Some(shift) = shift else {
        return plan(row, 0.0);
    };
    let mu = tau * shift.mu;
    if usable(tau, mu, shift.norm) {
        let shifted = expmv::select_s_m(m_max, shifted_bound(tau, mu, shift.norm) * 2.0);
        return cheaper_shifted(row, mu, shifted);
    }
    plan(row, 0.0)
}

// None where no row fits the unshifted argument.
pub fn sweep_plan(m_max: u32, tau: f64, q: CsrMatrix, norm: f64) -> Option<SweepPlan>
    requires { Valid (matrix q) }
    ensures { result ≡ sweep_plan m_max tau (matrix q.entry) norm }
{
    let row = expmv::select_s_m(m_max, argument(tau, norm))?;
    let shift = csr_shift::negated_csr_shift(q, norm);
    Some(with_shift(m_max, tau, row, shift))
}
