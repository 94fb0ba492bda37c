// The library for the differential driver: on numbers and bytes, unpacked into local arrays.
#![tactic(auto)]

ghost use Rattle.std.specs.Prelude.{◌≡◌, ◌/◌, ◌≤◌, length};
ghost use Rattle.general_operator.specs.Csr.{csr};
ghost use Rattle.generator_action.specs.Mass.{given};
ghost use Rattle.generator_action.specs.Generator.{forward};
ghost use Rattle.taylor_job.specs.Calls.{phi_combination, phi_action, phi_action_batched};
ghost use Rattle.krylov_job.specs.KrylovCall.{phi_combination_krylov};
ghost use Rattle.phi_solver.specs.Combine.{answering};
ghost use Rattle.le_bytes.specs.Bytes.{numbers_of, doubles_of};
ghost use Rattle.answers.specs.Told.{numbers, run_numbers, taylor_numbers, krylov_numbers, options};
ghost use Rattle.byte_arrays.specs.Large.{large};
ghost use Rattle.byte_calls.specs.Inner.{told, called};
ghost use Rattle.array_calls.specs.Replies.{replies, packed, replied};

use byte_calls::{PhiCall, Told};

// A job that is not large is refused where columns, row starts, a given mass, vectors or output have more than 512 elements. Cut slices are refused
// alike, columns while they are more than 512, the most entries; `reported` gives the length handed in. 2 reports the entries, which are not cut.
fn answer(
    call: PhiCall,
    n: usize,
    starts: &[u8],
    cols: &[u8],
    vals: &[u8],
    with_mass: bool,
    mass: &[u8],
    tau: f64,
    k: usize,
    v: &[u8],
    out: &mut [u8],
    work: &mut [u8],
) -> Told
    requires { (n ≤ 64) × (length vals.now / 8 ≤ 512) × (length work.old / 8 ≤ 4096) }
    ensures { replies (told call result) out.new work.new ≡ packed (called call (forward (csr n (numbers_of starts.now) (numbers_of cols.now) (doubles_of vals.now)) (given with_mass (doubles_of mass.now))) tau k (doubles_of v.now) (doubles_of out.old) (doubles_of work.old)) out.old work.old }
{
    let starts_len = starts.len();
    let mass_len = byte_arrays::used(with_mass, mass.len());
    let v_len = v.len();
    let out_len = out.len();
    let starts_part = byte_arrays::part(starts_len, 2051);
    let cols_part = byte_arrays::part(cols.len(), 2055);
    let mass_part = byte_arrays::part(mass_len, 4103);
    let v_part = byte_arrays::part(v_len, 4103);
    let out_part = byte_arrays::part(out_len, 4103);
    let t = array_calls::in_arrays(
        call,
        n,
        &starts[..starts_part],
        &cols[..cols_part],
        vals,
        with_mass,
        &mass[..mass_part],
        tau,
        k,
        &v[..v_part],
        &mut out[..out_part],
        work,
    );
    byte_calls::reported(t, starts_len / 4, mass_len / 8, out_len / 8, v_len / 8)
}

// `phi_combination::phi_combination`.
pub fn hazhendu_phi_combination_bytes(
    n: usize,
    starts: &[u8],
    cols: &[u8],
    vals: &[u8],
    with_mass: bool,
    mass: &[u8],
    tau: f64,
    degree: u32,
    count: usize,
    w: &[u8],
    out: &mut [u8],
    work: &mut [u8],
    value: &mut f64,
    s: &mut u32,
    m: &mut u32,
    applications: &mut u64,
) -> u32
    ensures { replies (numbers result value.new s.new m.new applications.new) out.new work.new ≡ replied (large n (length vals.now) (length work.old)) (replies (numbers 255 value.old s.old m.old applications.old) out.old work.old) (answering taylor_numbers (phi_combination (forward (csr n (numbers_of starts.now) (numbers_of cols.now) (doubles_of vals.now)) (given with_mass (doubles_of mass.now))) tau degree count (doubles_of w.now) (doubles_of out.old) (doubles_of work.old))) }
{
    if byte_arrays::large(n, vals.len(), work.len()) {
        return 255;
    }
    let t = answer(
        PhiCall::Combination(degree),
        n,
        starts,
        cols,
        vals,
        with_mass,
        mass,
        tau,
        count,
        w,
        out,
        work,
    );
    byte_calls::taylor_numbers(t, value, s, m, applications)
}

// `phi_action::phi_action`.
pub fn hazhendu_phi_action_bytes(
    n: usize,
    starts: &[u8],
    cols: &[u8],
    vals: &[u8],
    with_mass: bool,
    mass: &[u8],
    tau: f64,
    degree: u32,
    k: usize,
    v: &[u8],
    out: &mut [u8],
    work: &mut [u8],
    value: &mut f64,
    s: &mut u32,
    m: &mut u32,
    applications: &mut u64,
) -> u32
    ensures { replies (numbers result value.new s.new m.new applications.new) out.new work.new ≡ replied (large n (length vals.now) (length work.old)) (replies (numbers 255 value.old s.old m.old applications.old) out.old work.old) (answering taylor_numbers (phi_action (forward (csr n (numbers_of starts.now) (numbers_of cols.now) (doubles_of vals.now)) (given with_mass (doubles_of mass.now))) tau degree k (doubles_of v.now) (doubles_of out.old) (doubles_of work.old))) }
{
    if byte_arrays::large(n, vals.len(), work.len()) {
        return 255;
    }
    let t = answer(
        PhiCall::Action(degree),
        n,
        starts,
        cols,
        vals,
        with_mass,
        mass,
        tau,
        k,
        v,
        out,
        work,
    );
    byte_calls::taylor_numbers(t, value, s, m, applications)
}

// `phi_batch::phi_action_batched`.
pub fn hazhendu_phi_action_batched_bytes(
    n: usize,
    starts: &[u8],
    cols: &[u8],
    vals: &[u8],
    with_mass: bool,
    mass: &[u8],
    tau: f64,
    degree: u32,
    p: usize,
    v: &[u8],
    out: &mut [u8],
    work: &mut [u8],
    value: &mut f64,
    s: &mut u32,
    m: &mut u32,
    applications: &mut u64,
) -> u32
    ensures { replies (numbers result value.new s.new m.new applications.new) out.new work.new ≡ replied (large n (length vals.now) (length work.old)) (replies (numbers 255 value.old s.old m.old applications.old) out.old work.old) (answering taylor_numbers (phi_action_batched (forward (csr n (numbers_of starts.now) (numbers_of cols.now) (doubles_of vals.now)) (given with_mass (doubles_of mass.now))) tau degree p (doubles_of v.now) (doubles_of out.old) (doubles_of work.old))) }
{
    if byte_arrays::large(n, vals.len(), work.len()) {
        return 255;
    }
    let t = answer(
        PhiCall::Batch(degree),
        n,
        starts,
        cols,
        vals,
        with_mass,
        mass,
        tau,
        p,
        v,
        out,
        work,
    );
    byte_calls::taylor_numbers(t, value, s, m, applications)
}

// `phi_krylov::phi_combination_krylov`.
pub fn hazhendu_phi_combination_krylov_bytes(
    n: usize,
    starts: &[u8],
    cols: &[u8],
    vals: &[u8],
    with_mass: bool,
    mass: &[u8],
    tau: f64,
    count: usize,
    w: &[u8],
    tol: f64,
    m: usize,
    max_substeps: usize,
    out: &mut [u8],
    work: &mut [u8],
    value: &mut f64,
    substeps: &mut usize,
    matvecs: &mut usize,
    rejected: &mut usize,
    shortest: &mut f64,
    last: &mut f64,
) -> u32
    ensures { replies (run_numbers result value.new substeps.new matvecs.new rejected.new shortest.new last.new) out.new work.new ≡ replied (large n (length vals.now) (length work.old)) (replies (run_numbers 255 value.old substeps.old matvecs.old rejected.old shortest.old last.old) out.old work.old) (answering krylov_numbers (phi_combination_krylov (forward (csr n (numbers_of starts.now) (numbers_of cols.now) (doubles_of vals.now)) (given with_mass (doubles_of mass.now))) tau count (doubles_of w.now) (options tol m max_substeps) (doubles_of out.old) (doubles_of work.old))) }
{
    if byte_arrays::large(n, vals.len(), work.len()) {
        return 255;
    }
    let t = answer(
        PhiCall::Krylov(tol, m, max_substeps),
        n,
        starts,
        cols,
        vals,
        with_mass,
        mass,
        tau,
        count,
        w,
        out,
        work,
    );
    byte_calls::krylov_numbers(t, value, substeps, matvecs, rejected, shortest, last)
}
