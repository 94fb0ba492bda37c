// Replays a fixed list of answers through the exports on byte slices, and says how many differ. `make.py` writes the list
// and describes its form. Before a call the double and the counts are 90, and so is every byte of output and working memory.
#![tactic(auto)]

ghost use Rattle.std.specs.Prelude.{◌≡◌, ◌&&◌, cond, ◌-◌, length, leb, ltb, IsTrue, ◌↔◌};
ghost use Rattle.lists.specs.Loop.{tabulate};

use le_bytes::{double_at, half_at};
use pack_bytes::pattern;
use std::io::Read;
use std::{fmt, io};

#[derive(Clone, Copy)]
enum Call {
    Combination,
    Action,
    Batched,
    Krylov,
}

// 3 and all above it are Krylov.
impl From<usize> for Call {
    fn from(word: usize) -> Call {
        match word {
            0 => Call::Combination,
            1 => Call::Action,
            2 => Call::Batched,
            _ => Call::Krylov,
        }
    }
}

// A call, and what it is given.
#[derive(Clone, Copy)]
struct Job<'a> {
    call: Call,
    n: usize,
    starts: &'a [u8],
    cols: &'a [u8],
    vals: &'a [u8],
    with_mass: bool,
    mass: &'a [u8],
    tau: f64,
    degree: u32,
    count: usize,
    w: &'a [u8],
    tol: f64,
    m: usize,
    limit: usize,
}

// What a call hands back as numbers, each double as its bits; the steps of a Taylor call are 0.
#[derive(Clone, Copy, PartialEq)]
struct Answer {
    number: usize,
    value: usize,
    first: usize,
    second: usize,
    third: usize,
    shortest: usize,
    last: usize,
}

// A job with its working memory, in bytes, and what is expected: numbers, output, and how many bytes of the memory are cleared.
#[derive(Clone, Copy)]
struct Record<'a> {
    job: Job<'a>,
    memory: usize,
    answer: Answer,
    out: &'a [u8],
    cleared: usize,
}

#[derive(Clone, Copy)]
enum Section {
    Rust,
    Boundary,
    Published,
}

impl fmt::Display for Section {
    fn fmt<W: fmt::Write>(&self, f: &mut fmt::Formatter<W>) -> fmt::Result {
        f.write_str(match self {
            Section::Rust => "answers of the Rust",
            Section::Boundary => "boundary jobs",
            Section::Published => "published values",
        })
    }
}

// How many answers were replayed, how many differ, and the first record that does.
#[derive(Clone, Copy)]
struct Tally {
    replayed: u32,
    different: u32,
    first: Option<u32>,
}

impl fmt::Display for Tally {
    fn fmt<W: fmt::Write>(&self, f: &mut fmt::Formatter<W>) -> fmt::Result {
        let Tally {
            replayed,
            different,
            first,
        } = *self;
        write!(f, "{replayed} replayed, {different} different")?;
        match first {
            Some(k) => write!(f, ", the first is record {k}"),
            None => Ok(()),
        }
    }
}

// Whether two bit patterns lie at most `units` apart.
fn near(a: u64, b: u64, units: u64) -> bool
    ensures { result ≡ (leb (a - b) units && leb (b - a) units) }
{
    a.abs_diff(b) <= units
}

// Whether the memory is what a call leaves that clears so many bytes.
fn cleared_up_to(work: &[u8], cleared: usize) -> bool
    ensures { IsTrue result ↔ work.now ≡ tabulate (length work.now) (λ k. cond (ltb k cleared) 0 90) }
{
    work.iter()
        .enumerate()
        .all(|(k, b)| *b == if k < cleared { 0 } else { 90 })
}

// What a Krylov call hands back, on bytes or on slices.
fn krylov_answer<F>(call: F) -> Answer
where
    F: FnOnce(&mut f64, &mut usize, &mut usize, &mut usize, &mut f64, &mut f64) -> u32,
    requires { F.IsAlwaysCallable call }
{
    let mut value = 90.0f64;
    let mut substeps = 90usize;
    let mut matvecs = 90usize;
    let mut rejected = 90usize;
    let mut shortest = 90.0f64;
    let mut last = 90.0f64;
    let number = call(
        &mut value,
        &mut substeps,
        &mut matvecs,
        &mut rejected,
        &mut shortest,
        &mut last,
    );
    Answer {
        number: number as usize,
        value: pattern(value) as usize,
        first: matvecs,
        second: substeps,
        third: rejected,
        shortest: pattern(shortest) as usize,
        last: pattern(last) as usize,
    }
}

// One of the three; a bound `Fn` takes at most twelve arguments.
type TaylorCall = fn(
    usize,
    &[u8],
    &[u8],
    &[u8],
    bool,
    &[u8],
    f64,
    u32,
    usize,
    &[u8],
    &mut [u8],
    &mut [u8],
    &mut f64,
    &mut u32,
    &mut u32,
    &mut u64,
) -> u32;

fn ask_taylor(call: TaylorCall, job: Job, out: &mut [u8], work: &mut [u8]) -> Answer
    requires { IsAlwaysCallable call }
{
    let mut value = 90.0f64;
    let mut s = 90u32;
    let mut m = 90u32;
    let mut applications = 90u64;
    let number = call(
        job.n,
        job.starts,
        job.cols,
        job.vals,
        job.with_mass,
        job.mass,
        job.tau,
        job.degree,
        job.count,
        job.w,
        out,
        work,
        &mut value,
        &mut s,
        &mut m,
        &mut applications,
    );
    Answer {
        number: number as usize,
        value: pattern(value) as usize,
        first: s as usize,
        second: m as usize,
        third: applications as usize,
        shortest: 0,
        last: 0,
    }
}

fn ask_krylov(job: Job, out: &mut [u8], work: &mut [u8]) -> Answer {
    krylov_answer(|value, substeps, matvecs, rejected, shortest, last| {
        exports_bytes::hazhendu_phi_combination_krylov_bytes(
            job.n,
            job.starts,
            job.cols,
            job.vals,
            job.with_mass,
            job.mass,
            job.tau,
            job.count,
            job.w,
            job.tol,
            job.m,
            job.limit,
            out,
            work,
            value,
            substeps,
            matvecs,
            rejected,
            shortest,
            last,
        )
    })
}

fn ask(job: Job, out: &mut [u8], work: &mut [u8]) -> Answer {
    match job.call {
        Call::Combination => {
            ask_taylor(
                exports_bytes::hazhendu_phi_combination_bytes,
                job,
                out,
                work,
            )
        }
        Call::Action => ask_taylor(exports_bytes::hazhendu_phi_action_bytes, job, out, work),
        Call::Batched => {
            ask_taylor(
                exports_bytes::hazhendu_phi_action_batched_bytes,
                job,
                out,
                work,
            )
        }
        Call::Krylov => ask_krylov(job, out, work),
    }
}

fn last_word(b: &[u8]) -> u64 {
    b.last_chunk().map_or(0, |word| u64::from_le_bytes(*word))
}

// Whether the answer is the one expected, to the last bit.
fn same(answer: Answer, wanted: Answer, out: &[u8], wanted_out: &[u8]) -> bool
    ensures { IsTrue result ↔ (answer ≡ wanted) × (out.now ≡ wanted_out.now) }
{
    answer == wanted && out == wanted_out
}

// A published value says nothing of the report. The last double of the output has to be at most four units in the last place from it.
fn agrees(answer: Answer, out: &[u8], record: Record, section: Section) -> bool {
    match section {
        Section::Published => {
            answer.number == 0 && near(last_word(out), last_word(record.out), 4)
        }
        Section::Rust | Section::Boundary => same(answer, record.answer, out, record.out),
    }
}

// Nothing where there is too little room.
fn replayed(record: Record, section: Section) -> Option<bool> {
    let mut out_room = [90u8; 4096];
    let mut work_room = [90u8; 32768];
    let out = out_room.get_mut(..record.out.len())?;
    let work = work_room.get_mut(..record.memory)?;
    let answer = ask(record.job, out, work);
    Some(agrees(answer, out, record, section) && cleared_up_to(work, record.cleared))
}

// The body is starts, cols, vals, mass, w and the output expected; nothing where they do not follow one another.
fn job_of<'a>(head: &[u8; 184], words: [usize; 23], body: &'a [u8]) -> Option<Job<'a>> {
    let [
        call,
        n,
        with_mass,
        _,
        count,
        _,
        m,
        limit,
        starts,
        cols,
        vals,
        mass,
        w,
        ..
    ] = words;
    Some(Job {
        call: Call::from(call),
        n,
        starts: body.get(..starts)?,
        cols: body.get(starts..cols)?,
        vals: body.get(cols..vals)?,
        with_mass: with_mass == 1,
        mass: body.get(vals..mass)?,
        tau: double_at(head, 24),
        degree: half_at(head, 48) as u32,
        count,
        w: body.get(mass..w)?,
        tol: double_at(head, 40),
        m,
        limit,
    })
}

fn record_of<'a>(head: &[u8; 184], words: [usize; 23], body: &'a [u8]) -> Option<Record<'a>> {
    let [
        ..,
        w,
        _,
        memory,
        cleared,
        number,
        value,
        first,
        second,
        third,
        shortest,
        last,
    ] = words;
    if cleared > memory {
        return None;
    }
    Some(Record {
        job: job_of(head, words, body)?,
        memory,
        answer: Answer {
            number,
            value,
            first,
            second,
            third,
            shortest,
            last,
        },
        out: body.get(w..)?,
        cleared,
    })
}

// Nothing where the list ends, or is damaged.
fn read_record<'a, R: Read>(input: &mut R, room: &'a mut [u8]) -> Option<Record<'a>> {
    let mut head = [0u8; 184];
    input.read_exact(&mut head).ok()?;
    let mut words = [0usize; 23];
    le_bytes::unpack(&head, &mut words);
    let body = room.get_mut(..words[13])?;
    input.read_exact(body).ok()?;
    record_of(&head, words, body)
}

// Whether the library gives the answer that the next record holds.
fn replay_next<R: Read>(input: &mut R, section: Section) -> bool {
    let mut room = [0u8; 16384];
    read_record(input, &mut room)
        .and_then(|record| replayed(record, section))
        .unwrap_or(false)
}

// How many records follow.
fn read_count<R: Read>(input: &mut R) -> Option<u32> {
    let mut four = [0u8; 4];
    input.read_exact(&mut four).ok()?;
    Some(u32::from_le_bytes(four)).filter(|count| *count <= 10000)
}

fn replay_section<R: Read>(rt: &impl Print, input: &mut R, section: Section) -> io::Result<Tally> {
    let replayed = read_count(input).unwrap_or(0);
    let mut different = 0u32;
    let mut first = None;
    // k is the record's number, and what is read is no iterator
    for k in 0..replayed {
        if !replay_next(input, section) {
            different += 1;
            first = first.or(Some(k + 1));
        }
    }
    let tally = Tally {
        replayed,
        different,
        first,
    };
    println!(rt; "{section}: {tally}")?;
    Ok(tally)
}

// 200 rows with no entries and one vector, on slices: a job too large for the exports on bytes. The memory is what M = 128 needs.
fn number_200(m: usize) -> usize {
    let starts = [0u32; 201];
    let w = [1.0f64; 200];
    let mut out = [90.0f64; 200];
    let mut work = [90.0f64; 43300];
    let answer = krylov_answer(|value, substeps, matvecs, rejected, shortest, last| {
        exports_krylov::hazhendu_phi_combination_krylov(
            200,
            &starts,
            &[],
            &[],
            false,
            &[],
            1.0,
            1,
            &w,
            1.0e-10,
            m,
            100,
            &mut out,
            &mut work,
            value,
            substeps,
            matvecs,
            rejected,
            shortest,
            last,
        )
    });
    answer.number
}

fn main(rt: HostRuntime) -> io::Result<()> {
    let mut input = rt.reader();
    let a = replay_section(&rt, &mut input, Section::Rust)?;
    let b = replay_section(&rt, &mut input, Section::Boundary)?;
    let c = replay_section(&rt, &mut input, Section::Published)?;
    let replayed = u64::from(a.replayed) + u64::from(b.replayed) + u64::from(c.replayed);
    let different = u64::from(a.different) + u64::from(b.different) + u64::from(c.different);
    println!(rt; "in all: {replayed} replayed, {different} different")?;
    let accepted = number_200(128);
    let refused = number_200(129);
    println!(rt; "n = 200: m 128 gives {accepted}, m 129 gives {refused}")
}
