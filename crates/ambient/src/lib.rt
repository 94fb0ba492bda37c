// A soak under a changing ambient level: Taylor combinations in a row, and the extremes of one node's temperature over a window.
#![tactic(auto)]

ghost use Rattle.std.specs.Prelude.{◌≡◌, ◌-◌, ◌≤◌, length};
ghost use Rattle.lists.specs.Walk.{walk, on};
ghost use Rattle.lists.specs.Window.{window, splice};
ghost use Rattle.checks.specs.First.{first};
ghost use Rattle.checks.specs.Reasons.{Sound};
ghost use Rattle.general_operator.specs.Csr.{csr};
ghost use Rattle.generator_action.specs.Mass.{given, quotient_need, generator_checks};
ghost use Rattle.generator_action.specs.Generator.{forward};
ghost use Rattle.generator_action.specs.Known.{Passed};
ghost use Rattle.ambient_checks.specs.Inner.{log_of};
ghost use Rattle.ambient_turns.specs.Ambient.{settle, record_step, ended, concluded, begun, ambient};
ghost use Rattle.ambient_turns.specs.Inner.{results_of, shown_in, Logs, results, logging};

use ambient_turns::AmbientAnswer;
use generator_action::Shape;

// The records in order: the first starts from `field`, each other from what the one before it left in the output.
fn run_records(
    starts: &[u32],
    cols: &[u32],
    vals: &[f64],
    mass: &[f64],
    g: Shape,
    durations: &[f64],
    levels: &[f64],
    field: &[f64],
    load: &[f64],
    node: usize,
    out: &mut [f64],
    work: &mut [f64],
    temperatures: &mut [f64],
) -> AmbientAnswer
    requires passed { Passed (csr g.n starts.now cols.now vals.now) (given g.with_mass mass.now) g }
    requires value { (Sound ≡ first (generator_checks (csr g.n starts.now cols.now vals.now) (given g.with_mass mass.now))) × (g.stored ≡ quotient_need (csr g.n starts.now cols.now vals.now) (given g.with_mass mass.now)) }
    requires logs { Logs g.n (length durations.now) (length levels.now) (length field.now) (length load.now) (length out.old) (length temperatures.old) node }
    ensures temperatures_after { ended result out.new work.new (shown_in result (length durations.now) temperatures.new) ≡ concluded (walk (record_step (forward (csr g.n starts.now cols.now vals.now) (given g.with_mass mass.now)) (log_of durations.now levels.now) load.now node) (length durations.now) 0 (on (begun field.now out.old work.old))) }
    ensures durations_in_bounds { (results_of result (length durations.now) ≤ length durations.now) × (temperatures.new ≡ splice 0 (shown_in result (length durations.now) temperatures.new) temperatures.old) }
{
    let k = durations.len();
    let mut answer = AmbientAnswer::Logged;
    // i is the record's number: it tells the first one, and stands in the answer
    for i in 0..k {
        let AmbientAnswer::Logged = answer else {
            return answer;
        };
        let call = ambient_record::record_call(
            starts,
            cols,
            vals,
            mass,
            g,
            durations[i],
            levels[i],
            i == 0,
            field,
            load,
            out,
            work,
        );
        answer = ambient_turns::settle(i, node, call, out, temperatures);
    }
    answer
}

// A soak under a changing ambient level over one matrix: each record has a duration and a level, and w_1 is the load times the level. Of the node the
// temperature after each record is shown, and the largest and the smallest among the last `window` of these.
pub fn ambient(
    n: usize,
    starts: &[u32],
    cols: &[u32],
    vals: &[f64],
    with_mass: bool,
    mass: &[f64],
    durations: &[f64],
    levels: &[f64],
    field: &[f64],
    load: &[f64],
    window: usize,
    node: usize,
    out: &mut [f64],
    work: &mut [f64],
    temperatures: &mut [f64],
    largest: &mut [f64],
    smallest: &mut [f64],
) -> AmbientAnswer
    ensures { logging result out.new work.new temperatures.new largest.new smallest.new ≡ ambient (forward (csr n starts.now cols.now vals.now) (given with_mass mass.now)) (log_of durations.now levels.now) field.now load.now window node out.old work.old (results temperatures.old largest.old smallest.old) }
{
    let matrix = generator_checks::check_generator(n, starts, cols, vals, with_mass, mass);
    let norm = match matrix {
        Err(r) => return AmbientAnswer::Refusal(r, 0),
        Ok(l) => l.norm,
    };
    let fields = ambient_checks::check_fields(n, field, load, out.len());
    let log = ambient_checks::check_log(
        n,
        durations,
        levels,
        window,
        node,
        temperatures.len(),
        largest.len(),
        smallest.len(),
    );
    if let Err(r) = combination::and_then(fields, log) {
        return AmbientAnswer::Refusal(r, 0);
    }
    let g = generator_action::generator_shape(n, with_mass, vals.len(), norm);
    let answer = run_records(
        starts,
        cols,
        vals,
        mass,
        g,
        durations,
        levels,
        field,
        load,
        node,
        out,
        work,
        temperatures,
    );
    let count = ambient_turns::results_of(answer, durations.len());
    extremes::show_extremes(window, temperatures, count, largest, smallest);
    answer
}
