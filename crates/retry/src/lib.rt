// Step control: whether a length is accepted, and the length tried next.
#![tactic(auto)]

ghost use Rattle.std.specs.Prelude.{◌≡◌};
ghost use Rattle.retry.specs.Retry.{accepts, retry};

// Safety factors of the step control (Sidje 1998): of the length tried next, and of the error allowed.
const GAMMA: f64 = 0.9;

const DELTA: f64 = 1.2;

pub fn accepts(tol: f64, t: f64, err: f64) -> bool
    ensures { result ≡ accepts tol t err }
{
    err <= DELTA * t * tol
}

pub fn retry(order: usize, tol: f64, t: f64, err: f64) -> f64
    ensures { result ≡ retry order tol t err }
{
    round2::round2(GAMMA * t * power::root(t * tol / err, order as u64))
}
