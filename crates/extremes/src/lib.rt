// The largest and the smallest among the last W numbers: a window that moves along a slice.
#![tactic(auto)]

ghost use Rattle.std.specs.Prelude.{◌≡◌, ◌≤◌, ◌<◌, length};
ghost use Rattle.lists.specs.Loop.{tabulate};
ghost use Rattle.lists.specs.Window.{splice};
ghost use Rattle.extremes.specs.Extremes.{unsigned_zero, window_start, largest, smallest};

// An extreme of 0 is given as +0.
#[tactic(auto, unfolding(crate::specs::Extremes::unsigned_zero))]
fn unsigned_zero(x: f64) -> f64
    ensures { result ≡ unsigned_zero x }
{
    if x == 0.0 { 0.0 } else { x }
}

// Where the window that ends with place i begins: at its start a slice has fewer numbers than a window.
#[tactic(auto, unfolding(crate::specs::Extremes::window_start))]
fn window_start(width: usize, i: usize) -> usize
    requires { (1 ≤ width) × (i < 1000000) }
    ensures value { result ≡ window_start width i }
    ensures upper_bound { result ≤ i }
{
    (i + 1).saturating_sub(width)
}

// The largest and the smallest number of a window.
#[derive(Clone, Copy)]
struct Extremes {
    largest: f64,
    smallest: f64,
}

// Of the window that ends with place i, in one pass.
fn extremes_at(width: usize, x: &[f64], i: usize) -> Extremes
    requires { (1 ≤ width) × (i < length x.now) × (i < 1000000) }
    ensures { (result.largest ≡ largest width x.now i) × (result.smallest ≡ smallest width x.now i) }
{
    let from = window_start(width, i);
    let mut high = x[from];
    let mut low = x[from];
    for t in &x[from + 1..=i] {
        high = float::max(high, *t);
        low = float::min(low, *t);
    }
    Extremes {
        largest: unsigned_zero(high),
        smallest: unsigned_zero(low),
    }
}

// The extremes of the window that ends with each of the first `count` numbers.
pub fn show_extremes(width: usize, x: &[f64], count: usize, high: &mut [f64], low: &mut [f64])
    requires le_width { (1 ≤ width) × (count ≤ 1000000) }
    requires count_in_bounds { (count ≤ length x.now) × (count ≤ length high.old) × (count ≤ length low.old) }
    ensures high_after { high.new ≡ splice 0 (tabulate count (largest width x.now)) high.old }
    ensures low_after { low.new ≡ splice 0 (tabulate count (smallest width x.now)) low.old }
{
    // By index: after a `zip` of two `iter_mut` the proof has nothing of what was written.
    for i in 0..count {
        let e = extremes_at(width, x, i);
        high[i] = e.largest;
        low[i] = e.smallest;
    }
}
