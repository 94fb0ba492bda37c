// What the answer of a record leaves, and the results of a log.
#![tactic(auto)]

ghost use Rattle.std.specs.Prelude.{◌≡◌, List, ◌+◌, ◌-◌, ◌≤◌, ◌<◌, length, Float};
ghost use Rattle.lists.specs.Window.{window, splice};
ghost use Rattle.combination.specs.Call.{ends};
ghost use Rattle.ambient_turns.specs.Ambient.{settle};
ghost use Rattle.ambient_turns.specs.Inner.{turn_at, results_of, shown_in};

use checks::Refusal;
use taylor_job::TaylorReport;

// A refusal's number and double with the record that met it, from 1 (0: before any record); the record after which the temperature is NaN; or all done.
#[derive(Clone, Copy)]
pub enum AmbientAnswer {
    Refusal(Refusal, u32),
    NotANumber(u32),
    Logged,
}

// After record i + 1: a refusal or a NaN temperature ends the work, any other temperature is shown.
pub fn settle(
    i: usize,
    node: usize,
    answer: Result<TaylorReport, Refusal>,
    out: &[f64],
    temperatures: &mut [f64],
) -> AmbientAnswer
    requires { (i < 100000) × (node < length out.now) × (i < length temperatures.old) }
    ensures temperatures_after { (memory : List Float) → turn_at result out.now out.now memory (shown_in result (i + 1) temperatures.new) ≡ settle node i (window 0 i temperatures.old) (ends answer out.now memory) answer }
    ensures i_bound { (results_of result (i + 1) ≤ i + 1) × ((t₀ : List Float) → temperatures.old ≡ splice 0 (window 0 i temperatures.old) t₀ → temperatures.new ≡ splice 0 (shown_in result (i + 1) temperatures.new) t₀) }
{
    let record = i as u32 + 1;
    match answer {
        Err(r) => AmbientAnswer::Refusal(r, record),
        Ok(_) => {
            let t = out[node];
            if t.is_nan() {
                return AmbientAnswer::NotANumber(record);
            }
            temperatures[i] = t;
            AmbientAnswer::Logged
        }
    }
}

// How many of k records have a result.
pub fn results_of(answer: AmbientAnswer, k: usize) -> usize
    requires { results_of answer k ≤ k }
    ensures { result ≡ results_of answer k }
{
    match answer {
        AmbientAnswer::Refusal(_, i) => records_before(i),
        AmbientAnswer::NotANumber(i) => records_before(i),
        AmbientAnswer::Logged => k,
    }
}

// The records before record i.
fn records_before(i: u32) -> usize
    ensures { result ≡ i - 1 }
{
    if i == 0 {
        return 0;
    }
    i as usize - 1
}
