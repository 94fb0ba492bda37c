// Exact functions of a double, each total: NaN, infinities, zeros of both signs and subnormals included.
#![tactic(auto)]

ghost use Rattle.std.specs.Prelude.{◌≡◌};
ghost use Rattle.std.specs.Float.{nan};
ghost use Rattle.doubles.specs.F64.{abs, is_finite, max_num, min_num, nat};
ghost use Rattle.doubles.specs.Whole.{ceil, floor};

#[tactic(auto, using(doubles::proofs::Library::abs_is))]
pub fn abs(x: f64) -> f64
    ensures { result ≡ abs x }
{
    x.abs()
}

#[tactic(auto, using(doubles::proofs::Library::is_finite_is))]
pub fn is_finite(x: f64) -> bool
    ensures { result ≡ is_finite x }
{
    x.is_finite()
}

pub fn not_a_number() -> f64
    ensures { result ≡ nan }
{
    f64::NAN
}

// A count as a double.
pub fn count(n: usize) -> f64
    ensures { result ≡ nat n }
{
    std::num::nearest_usize_to_f64(n)
}

// A NaN operand is dropped, and of two equal operands the first is given: the library's `max` may give either zero.
#[tactic(auto, using(doubles::proofs::Extremes::where_nan, doubles::proofs::Extremes::where_told, doubles::proofs::Extremes::where_number), unfolding(doubles::specs::F64::max_num))]
pub fn max(x: f64, y: f64) -> f64
    ensures { result ≡ max_num x y }
{
    if x.is_nan() || x < y {
        return y;
    }
    x
}

// As `max`: the library's `min` may give either zero.
#[tactic(auto, using(doubles::proofs::Extremes::where_nan, doubles::proofs::Extremes::where_told, doubles::proofs::Extremes::where_number), unfolding(doubles::specs::F64::min_num))]
pub fn min(x: f64, y: f64) -> f64
    ensures { result ≡ min_num x y }
{
    if x.is_nan() || y < x {
        return y;
    }
    x
}

#[tactic(auto, using(doubles::proofs::Library::ceil_is))]
pub fn ceil(x: f64) -> f64
    ensures { result ≡ ceil x }
{
    x.ceil()
}

#[tactic(auto, using(doubles::proofs::Library::floor_is))]
pub fn floor(x: f64) -> f64
    ensures { result ≡ floor x }
{
    x.floor()
}
