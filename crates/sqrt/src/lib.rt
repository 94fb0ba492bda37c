// The square root of a double, the nearest double, ties to even.
#![tactic(auto)]

ghost use Rattle.std.specs.Prelude.{◌≡◌};
ghost use Rattle.sqrt.specs.Sqrt.{sqrt};

#[tactic(auto, using(crate::proofs::Library::sqrt_is))]
pub fn sqrt(x: f64) -> f64
    ensures { result ≡ sqrt x }
{
    x.sqrt()
}
