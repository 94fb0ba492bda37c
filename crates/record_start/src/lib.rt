// The first vector of a record, and the load times its level.
#![tactic(auto)]

ghost use Rattle.std.specs.Prelude.{◌≡◌, ◌+◌, ◌-◌, ◌≤◌, length};
ghost use Rattle.lists.specs.Window.{splice};
ghost use Rattle.vectors.specs.Vectors.{scale};
ghost use Rattle.checks.specs.First.{first};
ghost use Rattle.combination.specs.Combination.{combination_start};
ghost use Rattle.combination.specs.Combination.{field_of};

// The first field of a record's run, at the front of the lent memory.
pub fn start_record(initial: bool, field: &[f64], out: &[f64], n: usize, inv: f64, work: &mut [f64])
    requires { (length (field_of initial field.now out.now) ≡ n) × (n + 1 ≤ length work.old) }
    ensures { work.new ≡ splice 0 (combination_start n (field_of initial field.now out.now) 1 inv) work.old }
{
    if initial {
        start_vectors::combination_start(n, field, 1, inv, work);
        return;
    }
    start_vectors::combination_start(n, out, 1, inv, work);
}

// out = load x level
pub fn scale_into(load: &[f64], level: f64, out: &mut [f64])
    requires { length load.now ≡ length out.old }
    ensures { out.new ≡ scale level load.now }
{
    for (i, value) in out.iter_mut().enumerate() {
        *value = load[i] * level;
    }
}
