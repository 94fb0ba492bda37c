// The answer to a matrix, and the shape of a generator that passed its checks; definitions and laws of the mass, the quotients and the norm.
#![tactic(auto)]

ghost use Rattle.std.specs.Prelude.{◌≡◌, true, List, ℕ, ◌-◌, length, Float};
ghost use Rattle.doubles.specs.Sum.{sum};
ghost use Rattle.checks.specs.First.{first};
ghost use Rattle.general_operator.specs.Csr.{csr};
ghost use Rattle.generator_action.specs.Mass.{stored};
ghost use Rattle.generator_action.specs.Known.{shape_of};

// A generator that passed its checks: its rows, whether its quotients are stored, the places that they take, and its norm.
#[derive(Clone, Copy)]
pub struct Shape {
    pub n: usize,
    pub with_mass: bool,
    pub stored: usize,
    pub norm: f64,
}

// Of a matrix with so many entries.
pub fn generator_shape(n: usize, with_mass: bool, entries: usize, norm: f64) -> Shape
    ensures { (starts cols : List ℕ) (vals mass : List Float) → length vals ≡ entries → result ≡ shape_of (csr n starts cols vals) with_mass mass norm }
{
    if with_mass {
        return Shape {
            n,
            with_mass: true,
            stored: entries,
            norm,
        };
    }
    Shape {
        n,
        with_mass: false,
        stored: 0,
        norm,
    }
}

// The largest row sum so far, and the first row that has it.
#[derive(Clone, Copy)]
pub struct Largest {
    pub norm: f64,
    pub row: usize,
}
