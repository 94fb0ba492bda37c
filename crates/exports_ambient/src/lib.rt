// A soak under a changing ambient level for programs in other languages: straight on slices, with no copy and no memory of its own.
#![tactic(auto)]

ghost use Rattle.std.specs.Prelude.{◌≡◌};
ghost use Rattle.general_operator.specs.Csr.{csr};
ghost use Rattle.generator_action.specs.Mass.{given};
ghost use Rattle.generator_action.specs.Generator.{forward};
ghost use Rattle.ambient_checks.specs.Inner.{log_of};
ghost use Rattle.ambient_turns.specs.Ambient.{ambient};
ghost use Rattle.ambient_turns.specs.Inner.{results};
ghost use Rattle.exports_ambient.specs.Told.{ambient_numbers, ambient_told, ambient_call, telling};

use ambient_turns::AmbientAnswer;

// The result is 0 or the refusal's number; `value` is the refusal's double, NaN where a temperature is, else 0; `record` is 0 where none is named.
fn ambient_told(answer: AmbientAnswer, value: &mut f64, record: &mut u32) -> u32
    ensures { ambient_numbers result value.new «record».new ≡ ambient_told answer }
{
    match answer {
        AmbientAnswer::Refusal(r, i) => {
            *value = r.value;
            *record = i;
            r.reason.number()
        }
        AmbientAnswer::NotANumber(i) => {
            *value = float::not_a_number();
            *record = i;
            0
        }
        AmbientAnswer::Logged => {
            *value = 0.0;
            *record = 0;
            0
        }
    }
}

// `ambient::ambient`, told by `ambient_told`.
#[unsafe(no_mangle)]
pub extern "C" fn hazhendu_ambient(
    n: usize,
    starts: &[u32],
    cols: &[u32],
    vals: &[f64],
    with_mass: bool,
    mass: &[f64],
    durations: &[f64],
    levels: &[f64],
    field: &[f64],
    load: &[f64],
    window: usize,
    node: usize,
    out: &mut [f64],
    work: &mut [f64],
    temperatures: &mut [f64],
    largest: &mut [f64],
    smallest: &mut [f64],
    value: &mut f64,
    record: &mut u32,
) -> u32
    ensures { ambient_call (ambient_numbers result value.new «record».new) out.new work.new (results temperatures.new largest.new smallest.new) ≡ telling (ambient (forward (csr n starts.now cols.now vals.now) (given with_mass mass.now)) (log_of durations.now levels.now) field.now load.now window node out.old work.old (results temperatures.old largest.old smallest.old)) }
{
    let answer = ambient::ambient(
        n,
        starts,
        cols,
        vals,
        with_mass,
        mass,
        durations,
        levels,
        field,
        load,
        window,
        node,
        out,
        work,
        temperatures,
        largest,
        smallest,
    );
    ambient_told(answer, value, record)
}
