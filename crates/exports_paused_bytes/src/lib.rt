// Paused runs for the differential driver: on numbers and bytes.
#![tactic(auto)]

ghost use Rattle.std.specs.Prelude.{◌≡◌, ◌/◌, ◌≤◌, length};
ghost use Rattle.general_operator.specs.Csr.{csr};
ghost use Rattle.generator_action.specs.Mass.{given};
ghost use Rattle.generator_action.specs.Generator.{forward};
ghost use Rattle.le_bytes.specs.Bytes.{numbers_of, doubles_of, words_of};
ghost use Rattle.answers.specs.Told.{options};
ghost use Rattle.exports_paused.specs.Told.{tolerance, start_told, step_told};
ghost use Rattle.byte_arrays.specs.Large.{large};
ghost use Rattle.paused_byte_calls.specs.Replies.{slices, replies, packs, replied};
ghost use Rattle.paused_byte_calls.specs.Inner.{job, called_run};

use paused_byte_calls::{Reported, RunCall};

// A job that is not large is refused where columns, row starts, a given mass, vectors, output, field or state have more than 512 elements. Cut slices are
// refused alike, columns while they are more than 512, the most entries; `reported` gives the length handed in.
fn answer(
    call: RunCall,
    n: usize,
    starts: &[u8],
    cols: &[u8],
    vals: &[u8],
    with_mass: bool,
    mass: &[u8],
    tau: f64,
    count: usize,
    w: &[u8],
    out: &mut [u8],
    work: &mut [u8],
    field: &mut [u8],
    numbers: &mut [u8],
    counts: &mut [u8],
) -> Reported
    requires { (n ≤ 64) × (length vals.now / 8 ≤ 512) × (length work.old / 8 ≤ 4096) }
    ensures { replies result.number result.value (slices out.new work.new field.new numbers.new counts.new) ≡ packs (called_run call (job (csr n (numbers_of starts.now) (numbers_of cols.now) (doubles_of vals.now)) (given with_mass (doubles_of mass.now)) tau count (doubles_of w.now)) (doubles_of out.old) (doubles_of work.old) (doubles_of field.old) (doubles_of numbers.old) (words_of counts.old)) (slices out.old work.old field.old numbers.old counts.old) }
{
    let mass_len = byte_arrays::used(with_mass, mass.len());
    let starts_part = byte_arrays::part(starts.len(), 2051);
    let cols_part = byte_arrays::part(cols.len(), 2055);
    let mass_part = byte_arrays::part(mass_len, 4103);
    let w_part = byte_arrays::part(w.len(), 4103);
    let out_len = out.len();
    let out_part = byte_arrays::part(out_len, 4103);
    let field_part = byte_arrays::part(field.len(), 4103);
    let numbers_part = byte_arrays::part(numbers.len(), 4103);
    let counts_part = byte_arrays::part(counts.len(), 4103);
    let mut r = paused_byte_calls::in_arrays(
        call,
        n,
        &starts[..starts_part],
        &cols[..cols_part],
        vals,
        with_mass,
        &mass[..mass_part],
        tau,
        count,
        &w[..w_part],
        &mut out[..out_part],
        work,
        &mut field[..field_part],
        &mut numbers[..numbers_part],
        &mut counts[..counts_part],
    );
    r.value = byte_arrays::reported(
        r.number,
        r.value,
        starts.len() / 4,
        mass_len / 8,
        out_len / 8,
        w.len() / 8,
    );
    r
}

// `paused_start::start`.
#[unsafe(no_mangle)]
pub extern "C" fn hazhendu_krylov_start_bytes(
    n: usize,
    starts: &[u8],
    cols: &[u8],
    vals: &[u8],
    with_mass: bool,
    mass: &[u8],
    tau: f64,
    count: usize,
    w: &[u8],
    tol: f64,
    m: usize,
    max_substeps: usize,
    out: &mut [u8],
    work: &mut [u8],
    field: &mut [u8],
    numbers: &mut [u8],
    counts: &mut [u8],
    value: &mut f64,
) -> u32
    ensures { replies result value.new (slices out.new work.new field.new numbers.new counts.new) ≡ replied (large n (length vals.now) (length work.old)) (replies 255 value.old (slices out.old work.old field.old numbers.old counts.old)) (start_told (options tol m max_substeps) (record { g = forward (csr n (numbers_of starts.now) (numbers_of cols.now) (doubles_of vals.now)) (given with_mass (doubles_of mass.now)); tau = tau; count = count; w = doubles_of w.now }) (doubles_of out.old) (doubles_of work.old) (doubles_of field.old) (doubles_of numbers.old) (words_of counts.old)) }
{
    if byte_arrays::large(n, vals.len(), work.len()) {
        return 255;
    }
    let r = answer(
        RunCall::Start(tol, m, max_substeps),
        n,
        starts,
        cols,
        vals,
        with_mass,
        mass,
        tau,
        count,
        w,
        out,
        work,
        field,
        numbers,
        counts,
    );
    *value = r.value;
    r.number
}

// `paused_step::step`.
#[unsafe(no_mangle)]
pub extern "C" fn hazhendu_krylov_step_bytes(
    n: usize,
    starts: &[u8],
    cols: &[u8],
    vals: &[u8],
    with_mass: bool,
    mass: &[u8],
    tau: f64,
    count: usize,
    w: &[u8],
    with_tol: bool,
    tol: f64,
    out: &mut [u8],
    work: &mut [u8],
    field: &mut [u8],
    numbers: &mut [u8],
    counts: &mut [u8],
    value: &mut f64,
) -> u32
    ensures { replies result value.new (slices out.new work.new field.new numbers.new counts.new) ≡ replied (large n (length vals.now) (length work.old)) (replies 255 value.old (slices out.old work.old field.old numbers.old counts.old)) (step_told (record { tolerance = tolerance with_tol tol; job = record { g = forward (csr n (numbers_of starts.now) (numbers_of cols.now) (doubles_of vals.now)) (given with_mass (doubles_of mass.now)); tau = tau; count = count; w = doubles_of w.now }; output = doubles_of out.old; memory = doubles_of work.old }) (doubles_of field.old) (doubles_of numbers.old) (words_of counts.old)) }
{
    if byte_arrays::large(n, vals.len(), work.len()) {
        return 255;
    }
    let r = answer(
        RunCall::Step(with_tol, tol),
        n,
        starts,
        cols,
        vals,
        with_mass,
        mass,
        tau,
        count,
        w,
        out,
        work,
        field,
        numbers,
        counts,
    );
    *value = r.value;
    r.number
}
