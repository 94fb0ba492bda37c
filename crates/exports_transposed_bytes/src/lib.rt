// The library on the transposed matrix for the differential driver: on numbers and bytes.
#![tactic(auto)]

ghost use Rattle.std.specs.Prelude.{◌≡◌, ◌/◌, ◌≤◌, length};
ghost use Rattle.general_operator.specs.Csr.{csr};
ghost use Rattle.generator_action.specs.Mass.{given};
ghost use Rattle.transpose.specs.Transpose.{lengths, buffers_after, transposed_answer};
ghost use Rattle.transposed.specs.Transposed.{phi_combination_transposed, phi_action_transposed, phi_action_batched_transposed, phi_combination_krylov_transposed};
ghost use Rattle.le_bytes.specs.Bytes.{numbers_of, doubles_of};
ghost use Rattle.answers.specs.Told.{numbers, run_numbers, matrix_numbers, taylor_numbers, krylov_numbers, options};
ghost use Rattle.transposed_told.specs.Telling.{telling, matrix_told};
ghost use Rattle.byte_arrays.specs.Large.{large};
ghost use Rattle.byte_calls.specs.Inner.{told};
ghost use Rattle.transposed_byte_calls.specs.Replies.{lent, unpacked, replies, packs, replied, matrix_replies, matrix_packs, matrix_replied};
ghost use Rattle.transposed_byte_calls.specs.Inner.{called_transposed, checked_transposed};

use byte_calls::{PhiCall, Told};

// A job that is not large is refused where columns, row starts, a given mass, vectors or output have more than 512 elements. Cut slices are refused
// alike, columns while they are more than 512, the most entries; `reported` gives the length handed in. Of buffers that are cut, enough is left.
fn answer(
    call: PhiCall,
    n: usize,
    starts: &[u8],
    cols: &[u8],
    vals: &[u8],
    with_mass: bool,
    mass: &[u8],
    t_starts: &mut [u8],
    t_cols: &mut [u8],
    t_vals: &mut [u8],
    tau: f64,
    k: usize,
    v: &[u8],
    out: &mut [u8],
    work: &mut [u8],
) -> Told
    requires { (n ≤ 64) × (length vals.now / 8 ≤ 512) × (length work.old / 8 ≤ 4096) }
    ensures { replies (told call result) out.new work.new (lent t_starts.new t_cols.new t_vals.new) ≡ packs (called_transposed call (csr n (numbers_of starts.now) (numbers_of cols.now) (doubles_of vals.now)) (given with_mass (doubles_of mass.now)) (unpacked (lent t_starts.old t_cols.old t_vals.old)) tau k (doubles_of v.now) (doubles_of out.old) (doubles_of work.old)) out.old work.old (lent t_starts.old t_cols.old t_vals.old) }
{
    let mass_len = byte_arrays::used(with_mass, mass.len());
    let starts_part = byte_arrays::part(starts.len(), 2051);
    let cols_part = byte_arrays::part(cols.len(), 2055);
    let mass_part = byte_arrays::part(mass_len, 4103);
    let t_starts_part = byte_arrays::part(t_starts.len(), 2051);
    let t_cols_part = byte_arrays::part(t_cols.len(), 2051);
    let t_vals_part = byte_arrays::part(t_vals.len(), 4103);
    let v_part = byte_arrays::part(v.len(), 4103);
    let out_len = out.len();
    let out_part = byte_arrays::part(out_len, 4103);
    let t = transposed_byte_calls::in_arrays(
        call,
        n,
        &starts[..starts_part],
        &cols[..cols_part],
        vals,
        with_mass,
        &mass[..mass_part],
        &mut t_starts[..t_starts_part],
        &mut t_cols[..t_cols_part],
        &mut t_vals[..t_vals_part],
        tau,
        k,
        &v[..v_part],
        &mut out[..out_part],
        work,
    );
    byte_calls::reported(t, starts.len() / 4, mass_len / 8, out_len / 8, v.len() / 8)
}

// `transposed_combination::phi_combination_transposed`.
#[unsafe(no_mangle)]
pub extern "C" fn hazhendu_phi_combination_transposed_bytes(
    n: usize,
    starts: &[u8],
    cols: &[u8],
    vals: &[u8],
    with_mass: bool,
    mass: &[u8],
    t_starts: &mut [u8],
    t_cols: &mut [u8],
    t_vals: &mut [u8],
    tau: f64,
    degree: u32,
    count: usize,
    w: &[u8],
    out: &mut [u8],
    work: &mut [u8],
    value: &mut f64,
    s: &mut u32,
    m: &mut u32,
    applications: &mut u64,
) -> u32
    ensures { replies (numbers result value.new s.new m.new applications.new) out.new work.new (lent t_starts.new t_cols.new t_vals.new) ≡ replied (large n (length vals.now) (length work.old)) (replies (numbers 255 value.old s.old m.old applications.old) out.old work.old (lent t_starts.old t_cols.old t_vals.old)) (telling taylor_numbers (phi_combination_transposed (csr n (numbers_of starts.now) (numbers_of cols.now) (doubles_of vals.now)) (given with_mass (doubles_of mass.now)) (unpacked (lent t_starts.old t_cols.old t_vals.old)) tau degree count (doubles_of w.now) (doubles_of out.old) (doubles_of work.old))) }
{
    if byte_arrays::large(n, vals.len(), work.len()) {
        return 255;
    }
    let t = answer(
        PhiCall::Combination(degree),
        n,
        starts,
        cols,
        vals,
        with_mass,
        mass,
        t_starts,
        t_cols,
        t_vals,
        tau,
        count,
        w,
        out,
        work,
    );
    byte_calls::taylor_numbers(t, value, s, m, applications)
}

// `transposed_action::phi_action_transposed`.
#[unsafe(no_mangle)]
pub extern "C" fn hazhendu_phi_action_transposed_bytes(
    n: usize,
    starts: &[u8],
    cols: &[u8],
    vals: &[u8],
    with_mass: bool,
    mass: &[u8],
    t_starts: &mut [u8],
    t_cols: &mut [u8],
    t_vals: &mut [u8],
    tau: f64,
    degree: u32,
    k: usize,
    v: &[u8],
    out: &mut [u8],
    work: &mut [u8],
    value: &mut f64,
    s: &mut u32,
    m: &mut u32,
    applications: &mut u64,
) -> u32
    ensures { replies (numbers result value.new s.new m.new applications.new) out.new work.new (lent t_starts.new t_cols.new t_vals.new) ≡ replied (large n (length vals.now) (length work.old)) (replies (numbers 255 value.old s.old m.old applications.old) out.old work.old (lent t_starts.old t_cols.old t_vals.old)) (telling taylor_numbers (phi_action_transposed (csr n (numbers_of starts.now) (numbers_of cols.now) (doubles_of vals.now)) (given with_mass (doubles_of mass.now)) (unpacked (lent t_starts.old t_cols.old t_vals.old)) tau degree k (doubles_of v.now) (doubles_of out.old) (doubles_of work.old))) }
{
    if byte_arrays::large(n, vals.len(), work.len()) {
        return 255;
    }
    let t = answer(
        PhiCall::Action(degree),
        n,
        starts,
        cols,
        vals,
        with_mass,
        mass,
        t_starts,
        t_cols,
        t_vals,
        tau,
        k,
        v,
        out,
        work,
    );
    byte_calls::taylor_numbers(t, value, s, m, applications)
}

// `transposed_batch::phi_action_batched_transposed`.
#[unsafe(no_mangle)]
pub extern "C" fn hazhendu_phi_action_batched_transposed_bytes(
    n: usize,
    starts: &[u8],
    cols: &[u8],
    vals: &[u8],
    with_mass: bool,
    mass: &[u8],
    t_starts: &mut [u8],
    t_cols: &mut [u8],
    t_vals: &mut [u8],
    tau: f64,
    degree: u32,
    p: usize,
    v: &[u8],
    out: &mut [u8],
    work: &mut [u8],
    value: &mut f64,
    s: &mut u32,
    m: &mut u32,
    applications: &mut u64,
) -> u32
    ensures { replies (numbers result value.new s.new m.new applications.new) out.new work.new (lent t_starts.new t_cols.new t_vals.new) ≡ replied (large n (length vals.now) (length work.old)) (replies (numbers 255 value.old s.old m.old applications.old) out.old work.old (lent t_starts.old t_cols.old t_vals.old)) (telling taylor_numbers (phi_action_batched_transposed (csr n (numbers_of starts.now) (numbers_of cols.now) (doubles_of vals.now)) (given with_mass (doubles_of mass.now)) (unpacked (lent t_starts.old t_cols.old t_vals.old)) tau degree p (doubles_of v.now) (doubles_of out.old) (doubles_of work.old))) }
{
    if byte_arrays::large(n, vals.len(), work.len()) {
        return 255;
    }
    let t = answer(
        PhiCall::Batch(degree),
        n,
        starts,
        cols,
        vals,
        with_mass,
        mass,
        t_starts,
        t_cols,
        t_vals,
        tau,
        p,
        v,
        out,
        work,
    );
    byte_calls::taylor_numbers(t, value, s, m, applications)
}

// `transposed_krylov::phi_combination_krylov_transposed`.
#[unsafe(no_mangle)]
pub extern "C" fn hazhendu_phi_combination_krylov_transposed_bytes(
    n: usize,
    starts: &[u8],
    cols: &[u8],
    vals: &[u8],
    with_mass: bool,
    mass: &[u8],
    t_starts: &mut [u8],
    t_cols: &mut [u8],
    t_vals: &mut [u8],
    tau: f64,
    count: usize,
    w: &[u8],
    tol: f64,
    m: usize,
    max_substeps: usize,
    out: &mut [u8],
    work: &mut [u8],
    value: &mut f64,
    substeps: &mut usize,
    matvecs: &mut usize,
    rejected: &mut usize,
    shortest: &mut f64,
    last: &mut f64,
) -> u32
    ensures { replies (run_numbers result value.new substeps.new matvecs.new rejected.new shortest.new last.new) out.new work.new (lent t_starts.new t_cols.new t_vals.new) ≡ replied (large n (length vals.now) (length work.old)) (replies (run_numbers 255 value.old substeps.old matvecs.old rejected.old shortest.old last.old) out.old work.old (lent t_starts.old t_cols.old t_vals.old)) (telling krylov_numbers (phi_combination_krylov_transposed (csr n (numbers_of starts.now) (numbers_of cols.now) (doubles_of vals.now)) (given with_mass (doubles_of mass.now)) (unpacked (lent t_starts.old t_cols.old t_vals.old)) tau count (doubles_of w.now) (options tol m max_substeps) (doubles_of out.old) (doubles_of work.old))) }
{
    if byte_arrays::large(n, vals.len(), work.len()) {
        return 255;
    }
    let t = answer(
        PhiCall::Krylov(tol, m, max_substeps),
        n,
        starts,
        cols,
        vals,
        with_mass,
        mass,
        t_starts,
        t_cols,
        t_vals,
        tau,
        count,
        w,
        out,
        work,
    );
    byte_calls::krylov_numbers(t, value, substeps, matvecs, rejected, shortest, last)
}

// What is told of a matrix: 0 or the refusal's number, the norm or the refusal's double, and the row.
#[derive(Clone, Copy)]
struct RowTold {
    number: u32,
    value: f64,
    row: usize,
}

// The check of the matrix on cut slices.
fn check_answer(
    n: usize,
    starts: &[u8],
    cols: &[u8],
    vals: &[u8],
    with_mass: bool,
    mass: &[u8],
    t_starts: &mut [u8],
    t_cols: &mut [u8],
    t_vals: &mut [u8],
) -> RowTold
    requires { (n ≤ 64) × (length vals.now / 8 ≤ 512) }
    ensures { matrix_replies (numbers result.number result.value result.row 0 0) (lent t_starts.new t_cols.new t_vals.new) ≡ matrix_packs (checked_transposed (csr n (numbers_of starts.now) (numbers_of cols.now) (doubles_of vals.now)) (given with_mass (doubles_of mass.now)) (unpacked (lent t_starts.old t_cols.old t_vals.old))) (lent t_starts.old t_cols.old t_vals.old) }
{
    let mass_len = byte_arrays::used(with_mass, mass.len());
    let starts_part = byte_arrays::part(starts.len(), 2051);
    let cols_part = byte_arrays::part(cols.len(), 2055);
    let mass_part = byte_arrays::part(mass_len, 4103);
    let t_starts_part = byte_arrays::part(t_starts.len(), 2051);
    let t_cols_part = byte_arrays::part(t_cols.len(), 2051);
    let t_vals_part = byte_arrays::part(t_vals.len(), 4103);
    let answer = transposed_byte_calls::check_in_arrays(
        n,
        &starts[..starts_part],
        &cols[..cols_part],
        vals,
        with_mass,
        &mass[..mass_part],
        &mut t_starts[..t_starts_part],
        &mut t_cols[..t_cols_part],
        &mut t_vals[..t_vals_part],
    );
    let mut value = 0.0f64;
    let mut row = 0usize;
    let number = answers::matrix_numbers(answer, &mut value, &mut row);
    let told = byte_arrays::reported(number, value, starts.len() / 4, mass_len / 8, 0, 0);
    RowTold {
        number,
        value: told,
        row,
    }
}

// `transposed_checks::check_transposed`.
#[unsafe(no_mangle)]
pub extern "C" fn hazhendu_check_transposed_bytes(
    n: usize,
    starts: &[u8],
    cols: &[u8],
    vals: &[u8],
    with_mass: bool,
    mass: &[u8],
    t_starts: &mut [u8],
    t_cols: &mut [u8],
    t_vals: &mut [u8],
    value: &mut f64,
    row: &mut usize,
) -> u32
    ensures { matrix_replies (numbers result value.new row.new 0 0) (lent t_starts.new t_cols.new t_vals.new) ≡ matrix_replied (large n (length vals.now) 0) (matrix_replies (numbers 255 value.old row.old 0 0) (lent t_starts.old t_cols.old t_vals.old)) (matrix_told (matrix_numbers (transposed_answer (csr n (numbers_of starts.now) (numbers_of cols.now) (doubles_of vals.now)) (given with_mass (doubles_of mass.now)) (lengths (unpacked (lent t_starts.old t_cols.old t_vals.old))))) (buffers_after (csr n (numbers_of starts.now) (numbers_of cols.now) (doubles_of vals.now)) (given with_mass (doubles_of mass.now)) (unpacked (lent t_starts.old t_cols.old t_vals.old)))) }
{
    if byte_arrays::large(n, vals.len(), 0) {
        return 255;
    }
    let t = check_answer(
        n, starts, cols, vals, with_mass, mass, t_starts, t_cols, t_vals,
    );
    *value = t.value;
    *row = t.row;
    t.number
}
