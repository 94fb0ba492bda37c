// The choice of scaling and degree for a truncated Taylor series.
#![tactic(auto)]

ghost use Rattle.std.specs.Prelude.{◌≡◌, ◌*◌, get_or, ℕ};
ghost use Rattle.std.specs.Float.{nan};
ghost use Rattle.expmv.specs.Select.{thetas, degree, row_at, cheaper, select_s_m};

// A row of the schedule: s sweeps of degree m.
#[derive(Clone, Copy)]
pub struct Row {
    pub s: u32,
    pub m: u32,
}

impl Row {
    // Below 2^64.
    pub fn cost(self) -> u64
        ensures { result ≡ self.s * self.m }
    {
        u64::from(self.s) * u64::from(self.m)
    }
}

// The highest degree of a sweep.
pub const M_MAX: u32 = 30;

// Each degree with its theta.
const TABLE: [(u32, f64); 22] = [
    (1, 2.220e-16),
    (2, 2.581e-8),
    (3, 1.386e-5),
    (4, 3.397e-4),
    (5, 2.401e-3),
    (6, 9.066e-3),
    (7, 2.384e-2),
    (8, 4.991e-2),
    (9, 8.958e-2),
    (10, 1.442e-1),
    (11, 2.142e-1),
    (12, 2.996e-1),
    (13, 3.998e-1),
    (14, 5.139e-1),
    (15, 6.411e-1),
    (16, 7.803e-1),
    (17, 9.305e-1),
    (18, 1.091),
    (19, 1.260),
    (20, 1.438),
    (25, 2.429),
    (30, 3.540),
];

// How often theta goes into the argument, rounded and then up, but at least once. No row where the degree is above m_max or s no u32.
fn row_at(m_max: u32, arg: f64, m: u32, theta: f64) -> Option<Row>
    ensures { (i : ℕ) → m ≡ degree i → theta ≡ get_or thetas i nan → result ≡ row_at m_max arg i }
{
    if m <= m_max {
        let s = float::ceil(arg / theta);
        if s <= 4294967295.0 {
            let s = if s < 1.0 { 1 } else { s as u32 };
            return Some(Row { s, m });
        }
    }
    None
}

// Of two at equal cost the earlier, which is best.
fn cheaper(row: Row, best: Option<Row>) -> Row
    ensures { result ≡ cheaper row best }
{
    let Some(best) = best else {
        return row;
    };
    if row.cost() < best.cost() { row } else { best }
}

// The first row of least cost; none for an argument that is negative or not finite.
pub fn select_s_m(m_max: u32, arg: f64) -> Option<Row>
    ensures { result ≡ select_s_m m_max arg }
{
    if !float::is_finite(arg) || arg < 0.0 {
        return None;
    }
    let mut best = None;
    for (m, theta) in TABLE {
        if let Some(row) = row_at(m_max, arg, m, theta) {
            best = Some(cheaper(row, best));
        }
    }
    best
}
