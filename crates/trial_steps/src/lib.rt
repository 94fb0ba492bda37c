// The lengths tried on one basis.
#![tactic(auto)]

ghost use Rattle.std.specs.Prelude.{◌≡◌, List, ℕ, ◌+◌, ◌*◌, ◌≤◌, ◌<◌, length, Float};
ghost use Rattle.lists.specs.Walk.{on, walk};
ghost use Rattle.lists.specs.Window.{window};
ghost use Rattle.hess_exp.specs.HessExp.{hess_exp_e1};
ghost use Rattle.hess_rows.specs.Parts.{Leading};
ghost use Rattle.general_operator.specs.Csr.{Csr};
ghost use Rattle.phi_action_helpers.specs.declared.Coupling.{Coupling};
ghost use Rattle.phi_action_helpers.specs.declared.Layout.{Layout};
ghost use Rattle.gram_schmidt.specs.Memory.{setting_at, basis_at, Counted};
ghost use Rattle.trial_steps.specs.Trials.{MAX_REJECT, local_error, try_step, exact_step, trials};
ghost use Rattle.trial_steps.specs.Memory.{trial_at, Modest, columns_in};

use gram_schmidt::{Broken, Full, Krylov};

// How many lengths may be rejected on one basis.
const MAX_REJECT: usize = 10;

// The error of a length, and the order of the root that shortens it.
#[derive(Clone, Copy)]
pub struct Estimate {
    pub err: f64,
    pub order: usize,
}

// A length accepted: the rejections before it, its error, and how many columns have a coefficient.
#[derive(Clone, Copy)]
pub struct Step {
    pub rejections: usize,
    pub t: f64,
    pub err: f64,
    pub count: usize,
}

// The rejections so far and the length to be tried; or the end: accepted, or no inner plan for the argument.
#[derive(Clone, Copy)]
pub enum Outcome {
    Next(usize, f64),
    Accepted(Step),
    NoPlan(f64),
}

// Of an accepted length the coefficients stand in the first places of f.
#[derive(Clone, Copy)]
pub struct Trial {
    pub outcome: Outcome,
    pub f: [f64; 130],
}

// From the column f of the small exponential.
fn local_error(m: usize, beta: f64, avnorm: f64, f: &[f64]) -> Estimate
    requires { m + 1 < length f.now }
    ensures { result ≡ local_error m beta avnorm f.now }
{
    let phi1 = float::abs(beta * f[m]);
    let phi2 = float::abs(beta * f[m + 1] * avnorm);
    if phi1 > 10.0 * phi2 {
        Estimate {
            err: phi2,
            order: m,
        }
    } else if phi1 > phi2 {
        Estimate {
            err: phi1 * phi2 / (phi1 - phi2),
            order: m,
        }
    } else if m > 2 {
        Estimate {
            err: phi1,
            order: m - 1,
        }
    } else {
        Estimate {
            err: phi1,
            order: 1,
        }
    }
}

// One length tried: accepted, or rejected and shortened.
fn try_step(h: &[f64], k: Krylov, beta: f64, avnorm: f64, rejections: usize, t: f64) -> Trial
    requires m_bound { (k.m ≤ 128) × (rejections ≤ MAX_REJECT) }
    requires h_len { length h.now ≡ (k.m + 2) * (k.m + 2) }
    ensures result_value { (l : Layout) (b : Coupling) (q : Csr) (vectors : List Float) (i : ℕ) → trial_at result ≡ try_step (setting_at l b k q vectors) beta h.now avnorm i (record { rejections = rejections; t = t }) }
    ensures modest { Modest (rejections + 1) (k.m + 1) result }
{
    let m = k.m;
    let dim = m + 2;
    let small = hess_exp::hess_exp_e1(h, dim, dim, t);
    let f = small.column;
    if small.planned {
        let e = local_error(m, beta, avnorm, &f[..dim]);
        if retry::accepts(k.tol, t, e.err) {
            let s = Step {
                rejections,
                t,
                err: e.err,
                count: m + 1,
            };
            return Trial {
                outcome: Outcome::Accepted(s),
                f,
            };
        }
        let shorter = retry::retry(e.order, k.tol, t, e.err);
        return Trial {
            outcome: Outcome::Next(rejections + 1, shorter),
            f,
        };
    }
    Trial {
        outcome: Outcome::NoPlan(small.argument),
        f,
    }
}

// At most MAX_REJECT + 1 lengths, the first t.
fn try_lengths(h: &[f64], k: Krylov, beta: f64, avnorm: f64, t: f64) -> Trial
    requires m_bound { k.m ≤ 128 }
    requires h_len { length h.now ≡ (k.m + 2) * (k.m + 2) }
    ensures result_value { (l : Layout) (b : Coupling) (q : Csr) (vectors : List Float) → trial_at result ≡ walk (try_step (setting_at l b k q vectors) beta h.now avnorm) (MAX_REJECT + 1) 0 (on (record { rejections = 0; t = t })) }
    ensures modest { Modest (MAX_REJECT + 1) (k.m + 1) result }
{
    let mut o = Trial {
        outcome: Outcome::Next(0, t),
        f: [0.0; 130],
    };
    for _ in 0..MAX_REJECT + 1 {
        let s = o.outcome;
        let Outcome::Next(rejections, length) = s else {
            return o;
        };
        o = try_step(h, k, beta, avnorm, rejections, length);
    }
    o
}

// On a breakdown the projection is exact: the whole remaining time is accepted.
fn exact_step(h: &[f64], dim: usize, mb: usize, beta: f64, hn: f64, remaining: f64) -> Trial
    requires le_mb { (1 ≤ mb) × (mb ≤ 130) }
    requires leading { Leading h.now dim mb }
    ensures result_value { trial_at result ≡ exact_step beta hn remaining (hess_exp_e1 h.now dim mb remaining) }
    ensures modest { Modest (MAX_REJECT + 1) mb result }
{
    let small = hess_exp::hess_exp_e1(h, dim, mb, remaining);
    let f = small.column;
    if small.planned {
        let s = Step {
            rejections: 0,
            t: remaining,
            err: beta * hn * remaining,
            count: mb,
        };
        return Trial {
            outcome: Outcome::Accepted(s),
            f,
        };
    }
    Trial {
        outcome: Outcome::NoPlan(small.argument),
        f,
    }
}

// Lengths tried on one basis, of which h is the small matrix.
pub fn trial_steps(
    h: &[f64],
    k: Krylov,
    beta: f64,
    next: f64,
    remaining: f64,
    basis: Result<Full, Broken>,
) -> Trial
    requires m_bound { (k.m ≤ 128) × Counted k.m basis }
    requires h_len { length h.now ≡ (k.m + 2) * (k.m + 2) }
    ensures result_value { (l : Layout) (b : Coupling) (q : Csr) (vectors work : List Float) → window k.h ((k.m + 2) * (k.m + 2)) work ≡ h.now → trial_at result ≡ trials (setting_at l b k q vectors) beta next remaining (basis_at l k basis work) }
    ensures modest { Modest (MAX_REJECT + 1) (columns_in k basis) result }
{
    match basis {
        Ok(b) => try_lengths(h, k, beta, b.avnorm, float::min(next, remaining)),
        Err(e) => exact_step(h, k.m + 2, e.mb, beta, e.hn, remaining),
    }
}
