// The calls of `exports_bytes` for C. A crate is a library, which others name, or a static library, which C links, so these are two.
#![tactic(auto)]

ghost use Rattle.std.specs.Prelude.{◌≡◌, length};
ghost use Rattle.general_operator.specs.Csr.{csr};
ghost use Rattle.generator_action.specs.Mass.{given};
ghost use Rattle.generator_action.specs.Generator.{forward};
ghost use Rattle.taylor_job.specs.Calls.{phi_combination, phi_action, phi_action_batched};
ghost use Rattle.krylov_job.specs.KrylovCall.{phi_combination_krylov};
ghost use Rattle.phi_solver.specs.Combine.{answering};
ghost use Rattle.le_bytes.specs.Bytes.{numbers_of, doubles_of};
ghost use Rattle.answers.specs.Told.{numbers, run_numbers, taylor_numbers, krylov_numbers, options};
ghost use Rattle.byte_arrays.specs.Large.{large};
ghost use Rattle.array_calls.specs.Replies.{replies, replied};

// `exports_bytes::hazhendu_phi_combination_bytes`.
#[unsafe(no_mangle)]
pub extern "C" fn hazhendu_phi_combination_bytes(
    n: usize,
    starts: &[u8],
    cols: &[u8],
    vals: &[u8],
    with_mass: bool,
    mass: &[u8],
    tau: f64,
    degree: u32,
    count: usize,
    w: &[u8],
    out: &mut [u8],
    work: &mut [u8],
    value: &mut f64,
    s: &mut u32,
    m: &mut u32,
    applications: &mut u64,
) -> u32
    ensures { replies (numbers result value.new s.new m.new applications.new) out.new work.new ≡ replied (large n (length vals.now) (length work.old)) (replies (numbers 255 value.old s.old m.old applications.old) out.old work.old) (answering taylor_numbers (phi_combination (forward (csr n (numbers_of starts.now) (numbers_of cols.now) (doubles_of vals.now)) (given with_mass (doubles_of mass.now))) tau degree count (doubles_of w.now) (doubles_of out.old) (doubles_of work.old))) }
{
    exports_bytes::hazhendu_phi_combination_bytes(
        n,
        starts,
        cols,
        vals,
        with_mass,
        mass,
        tau,
        degree,
        count,
        w,
        out,
        work,
        value,
        s,
        m,
        applications,
    )
}

// `exports_bytes::hazhendu_phi_action_bytes`.
#[unsafe(no_mangle)]
pub extern "C" fn hazhendu_phi_action_bytes(
    n: usize,
    starts: &[u8],
    cols: &[u8],
    vals: &[u8],
    with_mass: bool,
    mass: &[u8],
    tau: f64,
    degree: u32,
    k: usize,
    v: &[u8],
    out: &mut [u8],
    work: &mut [u8],
    value: &mut f64,
    s: &mut u32,
    m: &mut u32,
    applications: &mut u64,
) -> u32
    ensures { replies (numbers result value.new s.new m.new applications.new) out.new work.new ≡ replied (large n (length vals.now) (length work.old)) (replies (numbers 255 value.old s.old m.old applications.old) out.old work.old) (answering taylor_numbers (phi_action (forward (csr n (numbers_of starts.now) (numbers_of cols.now) (doubles_of vals.now)) (given with_mass (doubles_of mass.now))) tau degree k (doubles_of v.now) (doubles_of out.old) (doubles_of work.old))) }
{
    exports_bytes::hazhendu_phi_action_bytes(
        n,
        starts,
        cols,
        vals,
        with_mass,
        mass,
        tau,
        degree,
        k,
        v,
        out,
        work,
        value,
        s,
        m,
        applications,
    )
}

// `exports_bytes::hazhendu_phi_action_batched_bytes`.
#[unsafe(no_mangle)]
pub extern "C" fn hazhendu_phi_action_batched_bytes(
    n: usize,
    starts: &[u8],
    cols: &[u8],
    vals: &[u8],
    with_mass: bool,
    mass: &[u8],
    tau: f64,
    degree: u32,
    p: usize,
    v: &[u8],
    out: &mut [u8],
    work: &mut [u8],
    value: &mut f64,
    s: &mut u32,
    m: &mut u32,
    applications: &mut u64,
) -> u32
    ensures { replies (numbers result value.new s.new m.new applications.new) out.new work.new ≡ replied (large n (length vals.now) (length work.old)) (replies (numbers 255 value.old s.old m.old applications.old) out.old work.old) (answering taylor_numbers (phi_action_batched (forward (csr n (numbers_of starts.now) (numbers_of cols.now) (doubles_of vals.now)) (given with_mass (doubles_of mass.now))) tau degree p (doubles_of v.now) (doubles_of out.old) (doubles_of work.old))) }
{
    exports_bytes::hazhendu_phi_action_batched_bytes(
        n,
        starts,
        cols,
        vals,
        with_mass,
        mass,
        tau,
        degree,
        p,
        v,
        out,
        work,
        value,
        s,
        m,
        applications,
    )
}

// `exports_bytes::hazhendu_phi_combination_krylov_bytes`.
#[unsafe(no_mangle)]
pub extern "C" fn hazhendu_phi_combination_krylov_bytes(
    n: usize,
    starts: &[u8],
    cols: &[u8],
    vals: &[u8],
    with_mass: bool,
    mass: &[u8],
    tau: f64,
    count: usize,
    w: &[u8],
    tol: f64,
    m: usize,
    max_substeps: usize,
    out: &mut [u8],
    work: &mut [u8],
    value: &mut f64,
    substeps: &mut usize,
    matvecs: &mut usize,
    rejected: &mut usize,
    shortest: &mut f64,
    last: &mut f64,
) -> u32
    ensures { replies (run_numbers result value.new substeps.new matvecs.new rejected.new shortest.new last.new) out.new work.new ≡ replied (large n (length vals.now) (length work.old)) (replies (run_numbers 255 value.old substeps.old matvecs.old rejected.old shortest.old last.old) out.old work.old) (answering krylov_numbers (phi_combination_krylov (forward (csr n (numbers_of starts.now) (numbers_of cols.now) (doubles_of vals.now)) (given with_mass (doubles_of mass.now))) tau count (doubles_of w.now) (options tol m max_substeps) (doubles_of out.old) (doubles_of work.old))) }
{
    exports_bytes::hazhendu_phi_combination_krylov_bytes(
        n,
        starts,
        cols,
        vals,
        with_mass,
        mass,
        tau,
        count,
        w,
        tol,
        m,
        max_substeps,
        out,
        work,
        value,
        substeps,
        matvecs,
        rejected,
        shortest,
        last,
    )
}
