// A start and a step of a paused run as one, on bytes unpacked into local arrays.
#![tactic(auto)]

ghost use Rattle.std.specs.Prelude.{◌≡◌, ◌*◌, ◌/◌, ◌≤◌, length};
ghost use Rattle.general_operator.specs.Csr.{csr};
ghost use Rattle.generator_action.specs.Mass.{given};
ghost use Rattle.le_bytes.specs.Bytes.{numbers_of, doubles_of, words_of};
ghost use Rattle.exports_paused.specs.Told.{told, state};
ghost use Rattle.paused_byte_calls.specs.Replies.{slices, replies, packs};
ghost use Rattle.paused_byte_calls.specs.Inner.{job, called_run};

// Which of the two; a start with tol, m and max_substeps, a step with a new tol or none.
#[derive(Clone, Copy)]
pub enum RunCall {
    Start(f64, usize, usize),
    Step(bool, f64),
}

// 0 or the refusal's number, and the double reported.
#[derive(Clone, Copy)]
pub struct Reported {
    pub number: u32,
    pub value: f64,
}

fn solve(
    call: RunCall,
    n: usize,
    starts: &[u32],
    cols: &[u32],
    vals: &[f64],
    with_mass: bool,
    mass: &[f64],
    tau: f64,
    count: usize,
    w: &[f64],
    out: &mut [f64],
    work: &mut [f64],
    field: &mut [f64],
    numbers: &mut [f64],
    counts: &mut [usize],
) -> Reported
    ensures { told (state result.number result.value numbers.new counts.new) out.new work.new field.new ≡ called_run call (job (csr n starts.now cols.now vals.now) (given with_mass mass.now) tau count w.now) out.old work.old field.old numbers.old counts.old }
{
    let mut value = 0.0f64;
    match call {
        RunCall::Start(tol, m, limit) => {
            let number = exports_paused::hazhendu_krylov_start(
                n, starts, cols, vals, with_mass, mass, tau, count, w, tol, m, limit, out, work,
                field, numbers, counts, &mut value,
            );
            Reported { number, value }
        }
        RunCall::Step(with_tol, tol) => {
            let number = exports_paused::hazhendu_krylov_step(
                n, starts, cols, vals, with_mass, mass, tau, count, w, with_tol, tol, out, work,
                field, numbers, counts, &mut value,
            );
            Reported { number, value }
        }
    }
}

// The call, and what it leaves packed.
fn run(
    call: RunCall,
    n: usize,
    starts: &[u32],
    cols: &[u32],
    vals: &[f64],
    with_mass: bool,
    mass: &[f64],
    tau: f64,
    count: usize,
    w: &[f64],
    out: &mut [u8],
    work: &mut [u8],
    field: &mut [u8],
    numbers: &mut [u8],
    counts: &mut [u8],
    out_array: &mut [f64],
    work_array: &mut [f64],
    field_array: &mut [f64],
    numbers_array: &mut [f64],
    counts_array: &mut [usize],
) -> Reported
    requires { (8 * length out_array.old ≤ length out.old) × (8 * length work_array.old ≤ length work.old) × (8 * length field_array.old ≤ length field.old) × (8 * length numbers_array.old ≤ length numbers.old) × (8 * length counts_array.old ≤ length counts.old) }
    ensures { replies result.number result.value (slices out.new work.new field.new numbers.new counts.new) ≡ packs (called_run call (job (csr n starts.now cols.now vals.now) (given with_mass mass.now) tau count w.now) out_array.old work_array.old field_array.old numbers_array.old counts_array.old) (slices out.old work.old field.old numbers.old counts.old) }
{
    let r = solve(
        call,
        n,
        starts,
        cols,
        vals,
        with_mass,
        mass,
        tau,
        count,
        w,
        out_array,
        work_array,
        field_array,
        numbers_array,
        counts_array,
    );
    pack_bytes::pack(out_array, out);
    pack_bytes::pack(work_array, work);
    pack_bytes::pack(field_array, field);
    pack_bytes::pack(numbers_array, numbers);
    pack_bytes::pack(counts_array, counts);
    r
}

// The lent slices in local arrays.
fn in_lent_arrays(
    call: RunCall,
    n: usize,
    starts: &[u32],
    cols: &[u32],
    vals: &[f64],
    with_mass: bool,
    mass: &[f64],
    tau: f64,
    count: usize,
    w: &[f64],
    out: &mut [u8],
    work: &mut [u8],
    field: &mut [u8],
    numbers: &mut [u8],
    counts: &mut [u8],
) -> Reported
    requires { (length out.old / 8 ≤ 512) × (length work.old / 8 ≤ 4096) × (length field.old / 8 ≤ 512) × (length numbers.old / 8 ≤ 512) × (length counts.old / 8 ≤ 512) }
    ensures { replies result.number result.value (slices out.new work.new field.new numbers.new counts.new) ≡ packs (called_run call (job (csr n starts.now cols.now vals.now) (given with_mass mass.now) tau count w.now) (doubles_of out.old) (doubles_of work.old) (doubles_of field.old) (doubles_of numbers.old) (words_of counts.old)) (slices out.old work.old field.old numbers.old counts.old) }
{
    let mut out_array: [f64; 512] = byte_arrays::array(out);
    let mut work_array: [f64; 4096] = byte_arrays::array(work);
    let mut field_array: [f64; 512] = byte_arrays::array(field);
    let mut numbers_array: [f64; 512] = byte_arrays::array(numbers);
    let mut counts_array: [usize; 512] = byte_arrays::array(counts);
    let out_count = out.len() / 8;
    let work_count = work.len() / 8;
    let field_count = field.len() / 8;
    let numbers_count = numbers.len() / 8;
    let counts_count = counts.len() / 8;
    run(
        call,
        n,
        starts,
        cols,
        vals,
        with_mass,
        mass,
        tau,
        count,
        w,
        out,
        work,
        field,
        numbers,
        counts,
        &mut out_array[..out_count],
        &mut work_array[..work_count],
        &mut field_array[..field_count],
        &mut numbers_array[..numbers_count],
        &mut counts_array[..counts_count],
    )
}

// The other slices in local arrays.
pub fn in_arrays(
    call: RunCall,
    n: usize,
    starts: &[u8],
    cols: &[u8],
    vals: &[u8],
    with_mass: bool,
    mass: &[u8],
    tau: f64,
    count: usize,
    w: &[u8],
    out: &mut [u8],
    work: &mut [u8],
    field: &mut [u8],
    numbers: &mut [u8],
    counts: &mut [u8],
) -> Reported
    requires starts_len_bound { (length starts.now / 4 ≤ 512) × (length cols.now / 4 ≤ 513) × (length vals.now / 8 ≤ 512) × (length mass.now / 8 ≤ 512) × (length w.now / 8 ≤ 512) }
    requires out_len_bound { (length out.old / 8 ≤ 512) × (length work.old / 8 ≤ 4096) × (length field.old / 8 ≤ 512) × (length numbers.old / 8 ≤ 512) × (length counts.old / 8 ≤ 512) }
    ensures { replies result.number result.value (slices out.new work.new field.new numbers.new counts.new) ≡ packs (called_run call (job (csr n (numbers_of starts.now) (numbers_of cols.now) (doubles_of vals.now)) (given with_mass (doubles_of mass.now)) tau count (doubles_of w.now)) (doubles_of out.old) (doubles_of work.old) (doubles_of field.old) (doubles_of numbers.old) (words_of counts.old)) (slices out.old work.old field.old numbers.old counts.old) }
{
    let starts_array: [u32; 513] = byte_arrays::array(starts);
    let cols_array: [u32; 513] = byte_arrays::array(cols);
    let vals_array: [f64; 512] = byte_arrays::array(vals);
    let mass_array: [f64; 512] = byte_arrays::array(mass);
    let w_array: [f64; 512] = byte_arrays::array(w);
    let starts_count = starts.len() / 4;
    let cols_count = cols.len() / 4;
    let vals_count = vals.len() / 8;
    let mass_count = mass.len() / 8;
    let w_count = w.len() / 8;
    in_lent_arrays(
        call,
        n,
        &starts_array[..starts_count],
        &cols_array[..cols_count],
        &vals_array[..vals_count],
        with_mass,
        &mass_array[..mass_count],
        tau,
        count,
        &w_array[..w_count],
        out,
        work,
        field,
        numbers,
        counts,
    )
}
