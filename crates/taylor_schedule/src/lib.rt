// A Taylor job as its checks leave it: the row of the schedule, and the need of memory.
#![tactic(auto)]

ghost use Rattle.std.specs.Prelude.{◌≡◌, ◌+◌, ◌*◌, ◌≤◌};
ghost use Rattle.checks.specs.First.{or_first};
ghost use Rattle.combination.specs.Checks.{schedule_checks, taylor_need};
ghost use Rattle.taylor_schedule.specs.Inner.{scheduled, host_checks, job_of};

use checks::{Reason, Refusal};
use expmv::Row;
use generator_action::Shape;
use phi_action_helpers::Coupling;

// 24 and 25: the row of the schedule. 23, a norm out of range, never occurs, and its number is not used again.
pub fn check_schedule(m_max: u32, norm: f64, tau: f64) -> Result<Row, Refusal>
    ensures { result ≡ or_first (schedule_checks m_max norm tau) (scheduled m_max norm tau) }
{
    let arg = phi_shift::argument(tau, norm);
    if !float::is_finite(arg) {
        return Err(Refusal {
            reason: Reason::ArgumentNotFinite,
            value: arg,
        });
    }
    expmv::select_s_m(m_max, arg).ok_or(Refusal {
        reason: Reason::NoAdmissibleRow,
        value: arg,
    })
}

// A Taylor job as its checks leave it: what they found, with the numbers of its generator.
#[derive(Clone, Copy)]
pub struct Job {
    pub g: Shape,
    pub tau: f64,
    pub cap: u32,
    pub d: usize,
    pub need: usize,
    pub inv: f64,
    pub b: Coupling,
    pub row: Row,
}

// What a job needs of the lent memory.
fn taylor_need(n: usize, d: usize, stored: usize) -> usize
    requires { (n ≤ 1000000) × (d ≤ 3) × (stored ≤ 16777216) }
    ensures { result ≡ taylor_need n d stored }
{
    3 * n + 2 * d + stored
}

// 24 to 26.
pub fn plan_job(
    g: Shape,
    tau: f64,
    cap: u32,
    d: usize,
    inv: f64,
    b: Coupling,
    memory: usize,
) -> Result<Job, Refusal>
    requires { (g.n ≤ 1000000) × (d ≤ 3) × (g.stored ≤ 16777216) }
    ensures { result ≡ or_first (host_checks g tau cap d memory) (job_of g tau cap d inv b) }
{
    let row = check_schedule(cap, g.norm, tau)?;
    let need = taylor_need(g.n, d, g.stored);
    combination::check_memory(memory, need)?;
    Ok(Job {
        g,
        tau,
        cap,
        d,
        need,
        inv,
        b,
        row,
    })
}
