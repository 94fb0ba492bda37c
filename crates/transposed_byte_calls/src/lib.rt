// The four calls on the transposed matrix as one, on bytes unpacked into local arrays.
#![tactic(auto)]

ghost use Rattle.std.specs.Prelude.{◌≡◌, ◌*◌, ◌/◌, ◌≤◌, length};
ghost use Rattle.general_operator.specs.Csr.{csr};
ghost use Rattle.generator_action.specs.Mass.{given};
ghost use Rattle.combination.specs.Call.{ends};
ghost use Rattle.transpose.specs.Transpose.{buffers};
ghost use Rattle.transposed.specs.Transposed.{lends};
ghost use Rattle.le_bytes.specs.Bytes.{numbers_of, doubles_of};
ghost use Rattle.answers.specs.Told.{matrix_numbers};
ghost use Rattle.byte_calls.specs.Inner.{told};
ghost use Rattle.transposed_byte_calls.specs.Replies.{lent, unpacked, replies, packs, matrix_replies, matrix_packs};
ghost use Rattle.transposed_byte_calls.specs.Inner.{called_transposed, checked_transposed};

use byte_calls::{PhiCall, Told};
use checks::Refusal;
use generator_action::Largest;
use krylov_job::KrylovPhiOptions;

fn solve(
    call: PhiCall,
    n: usize,
    starts: &[u32],
    cols: &[u32],
    vals: &[f64],
    with_mass: bool,
    mass: &[f64],
    t_starts: &mut [u32],
    t_cols: &mut [u32],
    t_vals: &mut [f64],
    tau: f64,
    k: usize,
    v: &[f64],
    out: &mut [f64],
    work: &mut [f64],
) -> Told
    ensures { lends (ends (told call result) out.new work.new) (buffers t_starts.new t_cols.new t_vals.new) ≡ called_transposed call (csr n starts.now cols.now vals.now) (given with_mass mass.now) (buffers t_starts.old t_cols.old t_vals.old) tau k v.now out.old work.old }
{
    match call {
        PhiCall::Combination(degree) => byte_calls::of_taylor(
            transposed_combination::phi_combination_transposed(
                n, starts, cols, vals, with_mass, mass, t_starts, t_cols, t_vals, tau, degree, k,
                v, out, work,
            ),
        ),
        PhiCall::Action(degree) => byte_calls::of_taylor(transposed_action::phi_action_transposed(
            n, starts, cols, vals, with_mass, mass, t_starts, t_cols, t_vals, tau, degree, k, v,
            out, work,
        )),
        PhiCall::Batch(degree) => byte_calls::of_taylor(
            transposed_batch::phi_action_batched_transposed(
                n, starts, cols, vals, with_mass, mass, t_starts, t_cols, t_vals, tau, degree, k,
                v, out, work,
            ),
        ),
        PhiCall::Krylov(tol, m, limit) => byte_calls::of_krylov(
            transposed_krylov::phi_combination_krylov_transposed(
                n,
                starts,
                cols,
                vals,
                with_mass,
                mass,
                t_starts,
                t_cols,
                t_vals,
                tau,
                k,
                v,
                KrylovPhiOptions {
                    tol,
                    m,
                    max_substeps: limit,
                },
                out,
                work,
            ),
        ),
    }
}

// The call, and what it leaves packed.
fn run(
    call: PhiCall,
    n: usize,
    starts: &[u32],
    cols: &[u32],
    vals: &[f64],
    with_mass: bool,
    mass: &[f64],
    t_starts: &mut [u8],
    t_cols: &mut [u8],
    t_vals: &mut [u8],
    tau: f64,
    k: usize,
    v: &[f64],
    out: &mut [u8],
    work: &mut [u8],
    starts_array: &mut [u32],
    cols_array: &mut [u32],
    vals_array: &mut [f64],
    out_array: &mut [f64],
    work_array: &mut [f64],
) -> Told
    requires { (4 * length starts_array.old ≤ length t_starts.old) × (4 * length cols_array.old ≤ length t_cols.old) × (8 * length vals_array.old ≤ length t_vals.old) × (8 * length out_array.old ≤ length out.old) × (8 * length work_array.old ≤ length work.old) }
    ensures { replies (told call result) out.new work.new (lent t_starts.new t_cols.new t_vals.new) ≡ packs (called_transposed call (csr n starts.now cols.now vals.now) (given with_mass mass.now) (buffers starts_array.old cols_array.old vals_array.old) tau k v.now out_array.old work_array.old) out.old work.old (lent t_starts.old t_cols.old t_vals.old) }
{
    let t = solve(
        call,
        n,
        starts,
        cols,
        vals,
        with_mass,
        mass,
        starts_array,
        cols_array,
        vals_array,
        tau,
        k,
        v,
        out_array,
        work_array,
    );
    pack_bytes::pack(starts_array, t_starts);
    pack_bytes::pack(cols_array, t_cols);
    pack_bytes::pack(vals_array, t_vals);
    pack_bytes::pack(out_array, out);
    pack_bytes::pack(work_array, work);
    t
}

// The lent slices in local arrays.
fn in_lent_arrays(
    call: PhiCall,
    n: usize,
    starts: &[u32],
    cols: &[u32],
    vals: &[f64],
    with_mass: bool,
    mass: &[f64],
    t_starts: &mut [u8],
    t_cols: &mut [u8],
    t_vals: &mut [u8],
    tau: f64,
    k: usize,
    v: &[f64],
    out: &mut [u8],
    work: &mut [u8],
) -> Told
    requires { (length t_starts.old / 4 ≤ 512) × (length t_cols.old / 4 ≤ 512) × (length t_vals.old / 8 ≤ 512) × (length out.old / 8 ≤ 512) × (length work.old / 8 ≤ 4096) }
    ensures { replies (told call result) out.new work.new (lent t_starts.new t_cols.new t_vals.new) ≡ packs (called_transposed call (csr n starts.now cols.now vals.now) (given with_mass mass.now) (unpacked (lent t_starts.old t_cols.old t_vals.old)) tau k v.now (doubles_of out.old) (doubles_of work.old)) out.old work.old (lent t_starts.old t_cols.old t_vals.old) }
{
    let mut starts_array: [u32; 513] = byte_arrays::array(t_starts);
    let mut cols_array: [u32; 513] = byte_arrays::array(t_cols);
    let mut vals_array: [f64; 512] = byte_arrays::array(t_vals);
    let mut out_array: [f64; 512] = byte_arrays::array(out);
    let mut work_array: [f64; 4096] = byte_arrays::array(work);
    let starts_count = t_starts.len() / 4;
    let cols_count = t_cols.len() / 4;
    let vals_count = t_vals.len() / 8;
    let out_count = out.len() / 8;
    let work_count = work.len() / 8;
    run(
        call,
        n,
        starts,
        cols,
        vals,
        with_mass,
        mass,
        t_starts,
        t_cols,
        t_vals,
        tau,
        k,
        v,
        out,
        work,
        &mut starts_array[..starts_count],
        &mut cols_array[..cols_count],
        &mut vals_array[..vals_count],
        &mut out_array[..out_count],
        &mut work_array[..work_count],
    )
}

// The other slices in local arrays.
pub fn in_arrays(
    call: PhiCall,
    n: usize,
    starts: &[u8],
    cols: &[u8],
    vals: &[u8],
    with_mass: bool,
    mass: &[u8],
    t_starts: &mut [u8],
    t_cols: &mut [u8],
    t_vals: &mut [u8],
    tau: f64,
    k: usize,
    v: &[u8],
    out: &mut [u8],
    work: &mut [u8],
) -> Told
    requires starts_len_bound { (length starts.now / 4 ≤ 512) × (length cols.now / 4 ≤ 513) × (length vals.now / 8 ≤ 512) × (length mass.now / 8 ≤ 512) × (length v.now / 8 ≤ 512) }
    requires t_starts_len_bound { (length t_starts.old / 4 ≤ 512) × (length t_cols.old / 4 ≤ 512) × (length t_vals.old / 8 ≤ 512) × (length out.old / 8 ≤ 512) × (length work.old / 8 ≤ 4096) }
    ensures { replies (told call result) out.new work.new (lent t_starts.new t_cols.new t_vals.new) ≡ packs (called_transposed call (csr n (numbers_of starts.now) (numbers_of cols.now) (doubles_of vals.now)) (given with_mass (doubles_of mass.now)) (unpacked (lent t_starts.old t_cols.old t_vals.old)) tau k (doubles_of v.now) (doubles_of out.old) (doubles_of work.old)) out.old work.old (lent t_starts.old t_cols.old t_vals.old) }
{
    let starts_array: [u32; 513] = byte_arrays::array(starts);
    let cols_array: [u32; 513] = byte_arrays::array(cols);
    let vals_array: [f64; 512] = byte_arrays::array(vals);
    let mass_array: [f64; 512] = byte_arrays::array(mass);
    let v_array: [f64; 512] = byte_arrays::array(v);
    let starts_count = starts.len() / 4;
    let cols_count = cols.len() / 4;
    let vals_count = vals.len() / 8;
    let mass_count = mass.len() / 8;
    let v_count = v.len() / 8;
    in_lent_arrays(
        call,
        n,
        &starts_array[..starts_count],
        &cols_array[..cols_count],
        &vals_array[..vals_count],
        with_mass,
        &mass_array[..mass_count],
        t_starts,
        t_cols,
        t_vals,
        tau,
        k,
        &v_array[..v_count],
        out,
        work,
    )
}

// The check of the matrix, and what it leaves packed.
fn run_check(
    n: usize,
    starts: &[u32],
    cols: &[u32],
    vals: &[f64],
    with_mass: bool,
    mass: &[f64],
    t_starts: &mut [u8],
    t_cols: &mut [u8],
    t_vals: &mut [u8],
    starts_array: &mut [u32],
    cols_array: &mut [u32],
    vals_array: &mut [f64],
) -> Result<Largest, Refusal>
    requires { (4 * length starts_array.old ≤ length t_starts.old) × (4 * length cols_array.old ≤ length t_cols.old) × (8 * length vals_array.old ≤ length t_vals.old) }
    ensures { matrix_replies (matrix_numbers result) (lent t_starts.new t_cols.new t_vals.new) ≡ matrix_packs (checked_transposed (csr n starts.now cols.now vals.now) (given with_mass mass.now) (buffers starts_array.old cols_array.old vals_array.old)) (lent t_starts.old t_cols.old t_vals.old) }
{
    let answer = transposed_checks::check_transposed(
        n,
        starts,
        cols,
        vals,
        with_mass,
        mass,
        starts_array,
        cols_array,
        vals_array,
    );
    pack_bytes::pack(starts_array, t_starts);
    pack_bytes::pack(cols_array, t_cols);
    pack_bytes::pack(vals_array, t_vals);
    answer
}

// The same on local arrays.
pub fn check_in_arrays(
    n: usize,
    starts: &[u8],
    cols: &[u8],
    vals: &[u8],
    with_mass: bool,
    mass: &[u8],
    t_starts: &mut [u8],
    t_cols: &mut [u8],
    t_vals: &mut [u8],
) -> Result<Largest, Refusal>
    requires { (length starts.now / 4 ≤ 512) × (length cols.now / 4 ≤ 513) × (length vals.now / 8 ≤ 512) × (length mass.now / 8 ≤ 512) × (length t_starts.old / 4 ≤ 512) × (length t_cols.old / 4 ≤ 512) × (length t_vals.old / 8 ≤ 512) }
    ensures { matrix_replies (matrix_numbers result) (lent t_starts.new t_cols.new t_vals.new) ≡ matrix_packs (checked_transposed (csr n (numbers_of starts.now) (numbers_of cols.now) (doubles_of vals.now)) (given with_mass (doubles_of mass.now)) (unpacked (lent t_starts.old t_cols.old t_vals.old))) (lent t_starts.old t_cols.old t_vals.old) }
{
    let starts_read: [u32; 513] = byte_arrays::array(starts);
    let cols_read: [u32; 513] = byte_arrays::array(cols);
    let vals_read: [f64; 512] = byte_arrays::array(vals);
    let mass_read: [f64; 512] = byte_arrays::array(mass);
    let mut starts_array: [u32; 513] = byte_arrays::array(t_starts);
    let mut cols_array: [u32; 513] = byte_arrays::array(t_cols);
    let mut vals_array: [f64; 512] = byte_arrays::array(t_vals);
    let starts_count = starts.len() / 4;
    let cols_count = cols.len() / 4;
    let vals_count = vals.len() / 8;
    let mass_count = mass.len() / 8;
    let t_starts_count = t_starts.len() / 4;
    let t_cols_count = t_cols.len() / 4;
    let t_vals_count = t_vals.len() / 8;
    run_check(
        n,
        &starts_read[..starts_count],
        &cols_read[..cols_count],
        &vals_read[..vals_count],
        with_mass,
        &mass_read[..mass_count],
        t_starts,
        t_cols,
        t_vals,
        &mut starts_array[..t_starts_count],
        &mut cols_array[..t_cols_count],
        &mut vals_array[..t_vals_count],
    )
}
