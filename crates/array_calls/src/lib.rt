// The four calls on numbers and doubles in arrays of the stack, for jobs of at most 64 rows.
#![tactic(auto)]

ghost use Rattle.std.specs.Prelude.{◌≡◌, ◌*◌, ◌/◌, ◌≤◌, length};
ghost use Rattle.general_operator.specs.Csr.{csr};
ghost use Rattle.generator_action.specs.Mass.{given};
ghost use Rattle.generator_action.specs.Generator.{forward};
ghost use Rattle.combination.specs.Call.{ends};
ghost use Rattle.le_bytes.specs.Bytes.{numbers_of, doubles_of};
ghost use Rattle.byte_calls.specs.Inner.{told, called};
ghost use Rattle.array_calls.specs.Replies.{replies, packed};

use byte_calls::{PhiCall, Told};
use krylov_job::KrylovPhiOptions;

fn solve(
    call: PhiCall,
    n: usize,
    starts: &[u32],
    cols: &[u32],
    vals: &[f64],
    with_mass: bool,
    mass: &[f64],
    tau: f64,
    k: usize,
    v: &[f64],
    out: &mut [f64],
    work: &mut [f64],
) -> Told
    ensures { ends (told call result) out.new work.new ≡ called call (forward (csr n starts.now cols.now vals.now) (given with_mass mass.now)) tau k v.now out.old work.old }
{
    match call {
        PhiCall::Combination(degree) => byte_calls::of_taylor(phi_combination::phi_combination(
            n, starts, cols, vals, with_mass, mass, tau, degree, k, v, out, work,
        )),
        PhiCall::Action(degree) => byte_calls::of_taylor(phi_action::phi_action(
            n, starts, cols, vals, with_mass, mass, tau, degree, k, v, out, work,
        )),
        PhiCall::Batch(degree) => byte_calls::of_taylor(phi_batch::phi_action_batched(
            n, starts, cols, vals, with_mass, mass, tau, degree, k, v, out, work,
        )),
        PhiCall::Krylov(tol, m, limit) => byte_calls::of_krylov(
            phi_krylov::phi_combination_krylov(
                n,
                starts,
                cols,
                vals,
                with_mass,
                mass,
                tau,
                k,
                v,
                KrylovPhiOptions {
                    tol,
                    m,
                    max_substeps: limit,
                },
                out,
                work,
            ),
        ),
    }
}

// The call, and what it leaves packed.
fn run(
    call: PhiCall,
    n: usize,
    starts: &[u32],
    cols: &[u32],
    vals: &[f64],
    with_mass: bool,
    mass: &[f64],
    tau: f64,
    k: usize,
    v: &[f64],
    out: &mut [u8],
    work: &mut [u8],
    out_array: &mut [f64],
    work_array: &mut [f64],
) -> Told
    requires { (8 * length out_array.old ≤ length out.old) × (8 * length work_array.old ≤ length work.old) }
    ensures { replies (told call result) out.new work.new ≡ packed (called call (forward (csr n starts.now cols.now vals.now) (given with_mass mass.now)) tau k v.now out_array.old work_array.old) out.old work.old }
{
    let answer = solve(
        call, n, starts, cols, vals, with_mass, mass, tau, k, v, out_array, work_array,
    );
    pack_bytes::pack(out_array, out);
    pack_bytes::pack(work_array, work);
    answer
}

// The local arrays.
pub fn in_arrays(
    call: PhiCall,
    n: usize,
    starts: &[u8],
    cols: &[u8],
    vals: &[u8],
    with_mass: bool,
    mass: &[u8],
    tau: f64,
    k: usize,
    v: &[u8],
    out: &mut [u8],
    work: &mut [u8],
) -> Told
    requires { (length starts.now / 4 ≤ 512) × (length cols.now / 4 ≤ 513) × (length vals.now / 8 ≤ 512) × (length mass.now / 8 ≤ 512) × (length v.now / 8 ≤ 512) × (length out.old / 8 ≤ 512) × (length work.old / 8 ≤ 4096) }
    ensures { replies (told call result) out.new work.new ≡ packed (called call (forward (csr n (numbers_of starts.now) (numbers_of cols.now) (doubles_of vals.now)) (given with_mass (doubles_of mass.now))) tau k (doubles_of v.now) (doubles_of out.old) (doubles_of work.old)) out.old work.old }
{
    let starts_array: [u32; 513] = byte_arrays::array(starts);
    let cols_array: [u32; 513] = byte_arrays::array(cols);
    let vals_array: [f64; 512] = byte_arrays::array(vals);
    let mass_array: [f64; 512] = byte_arrays::array(mass);
    let v_array: [f64; 512] = byte_arrays::array(v);
    let mut out_array: [f64; 512] = byte_arrays::array(out);
    let mut work_array: [f64; 4096] = byte_arrays::array(work);
    let starts_count = starts.len() / 4;
    let cols_count = cols.len() / 4;
    let vals_count = vals.len() / 8;
    let mass_count = mass.len() / 8;
    let v_count = v.len() / 8;
    let out_count = out.len() / 8;
    let work_count = work.len() / 8;
    run(
        call,
        n,
        &starts_array[..starts_count],
        &cols_array[..cols_count],
        &vals_array[..vals_count],
        with_mass,
        &mass_array[..mass_count],
        tau,
        k,
        &v_array[..v_count],
        out,
        work,
        &mut out_array[..out_count],
        &mut work_array[..work_count],
    )
}
