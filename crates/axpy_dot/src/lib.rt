// axpy, and the inner product of its result with the next vector, in one loop. By index: the three are windows of one slice.
#![tactic(auto)]

ghost use Rattle.std.specs.Prelude.{◌≡◌, ◌+◌, ◌*◌, ◌/◌, ◌<◌, ◌≤◌, length, set};
ghost use Rattle.lists.specs.Window.{window, splice};
ghost use Rattle.lists.specs.Bounds.{Apart};
ghost use Rattle.doubles.specs.F64.{◌⊕◌, ◌⊗◌, at};
ghost use Rattle.vectors.specs.Vectors.{axpy};
ghost use Rattle.dot.specs.Dot.{lanes, dot};

use dot::{Lanes, Pair};

// Two places of y + a x in the place of y, and their products with v added. All is read before a place is written.
fn axpy_dot_pair(work: &mut [f64], y: usize, x: usize, v: usize, a: f64, acc: Pair) -> Pair
    requires { (y + 2 ≤ length work.old) × (x + 2 ≤ length work.old) × (v + 2 ≤ length work.old) }
    ensures work_after { work.new ≡ set (set work.old y (at work.old y ⊕ a ⊗ at work.old x)) (y + 1) (at work.old (y + 1) ⊕ a ⊗ at work.old (x + 1)) }
    ensures value { result ≡ record { first = acc.first ⊕ (at work.old y ⊕ a ⊗ at work.old x) ⊗ at work.old v; second = acc.second ⊕ (at work.old (y + 1) ⊕ a ⊗ at work.old (x + 1)) ⊗ at work.old (v + 1) } }
{
    let v0 = work[v];
    let v1 = work[v + 1];
    let y0 = work[y] + a * work[x];
    let y1 = work[y + 1] + a * work[x + 1];
    work[y] = y0;
    work[y + 1] = y1;
    Pair {
        first: acc.first + y0 * v0,
        second: acc.second + y1 * v1,
    }
}

// m blocks of four of y + a x in the place of y, and the partial sums of their inner product with v: a pair of places a turn, p being
// the pair of sums whose turn it is, q the other.
fn axpy_dot_pairs(
    work: &mut [f64],
    y_at: usize,
    x_at: usize,
    v_at: usize,
    m: usize,
    a: f64,
) -> Lanes
    requires m_in_bounds { (y_at + 4 * m ≤ length work.old) × (x_at + 4 * m ≤ length work.old) × (v_at + 4 * m ≤ length work.old) }
    requires apart { Apart y_at x_at (4 * m) × Apart y_at v_at (4 * m) }
    ensures work_after { work.new ≡ splice y_at (axpy a (window x_at (4 * m) work.old) (window y_at (4 * m) work.old)) work.old }
    ensures value { result ≡ lanes (axpy a (window x_at (4 * m) work.old) (window y_at (4 * m) work.old)) (window v_at (4 * m) work.old) m }
{
    let mut p = Pair {
        first: 0.0,
        second: 0.0,
    };
    let mut q = p;
    let pairs = 2 * m;
    for b in 0..pairs {
        let t = axpy_dot_pair(work, y_at + 2 * b, x_at + 2 * b, v_at + 2 * b, a, p);
        p = q;
        q = t;
    }
    Lanes {
        acc0: p.first,
        acc1: p.second,
        acc2: q.first,
        acc3: q.second,
    }
}

// The same, 64 blocks by one loop and then by the other: of vectors that come from far memory each stream is read in runs.
fn axpy_dot_runs(work: &mut [f64], y_at: usize, x_at: usize, v_at: usize, m: usize, a: f64) -> Lanes
    requires m_in_bounds { (y_at + 4 * m ≤ length work.old) × (x_at + 4 * m ≤ length work.old) × (v_at + 4 * m ≤ length work.old) }
    requires apart { Apart y_at x_at (4 * m) × Apart y_at v_at (4 * m) }
    ensures work_after { work.new ≡ splice y_at (axpy a (window x_at (4 * m) work.old) (window y_at (4 * m) work.old)) work.old }
    ensures value { result ≡ lanes (axpy a (window x_at (4 * m) work.old) (window y_at (4 * m) work.old)) (window v_at (4 * m) work.old) m }
{
    let y_end = y_at + 4 * m;
    let v_end = v_at + 4 * m;
    let mut acc = dot::no_lanes();
    for b in (0..m).step_by(64) {
        let count = (m - b).min(64);
        vectors::axpy_in(work, y_at + 4 * b, x_at + 4 * b, 4 * count, a);
        let w = &work[..];
        acc = dot::add_blocks(&w[y_at..y_end], &w[v_at..v_end], b, count, acc);
    }
    acc
}

// The one or the other: up to some 50,000 places the vectors lie in the caches.
fn axpy_dot_blocks(
    work: &mut [f64],
    y_at: usize,
    x_at: usize,
    v_at: usize,
    m: usize,
    a: f64,
) -> Lanes
    requires m_in_bounds { (y_at + 4 * m ≤ length work.old) × (x_at + 4 * m ≤ length work.old) × (v_at + 4 * m ≤ length work.old) }
    requires apart { Apart y_at x_at (4 * m) × Apart y_at v_at (4 * m) }
    ensures work_after { work.new ≡ splice y_at (axpy a (window x_at (4 * m) work.old) (window y_at (4 * m) work.old)) work.old }
    ensures value { result ≡ lanes (axpy a (window x_at (4 * m) work.old) (window y_at (4 * m) work.old)) (window v_at (4 * m) work.old) m }
{
    if m < 8192 {
        return axpy_dot_pairs(work, y_at, x_at, v_at, m, a);
    }
    axpy_dot_runs(work, y_at, x_at, v_at, m, a)
}

// y + a x in the place of y, and its inner product with v: y, x and v are windows.
pub fn axpy_dot_in(
    work: &mut [f64],
    y_at: usize,
    x_at: usize,
    v_at: usize,
    len: usize,
    a: f64,
) -> f64
    requires len_in_bounds { (y_at + len ≤ length work.old) × (x_at + len ≤ length work.old) × (v_at + len ≤ length work.old) }
    requires apart { Apart y_at x_at len × Apart y_at v_at len }
    ensures work_after { work.new ≡ splice y_at (axpy a (window x_at len work.old) (window y_at len work.old)) work.old }
    ensures value { result ≡ dot (axpy a (window x_at len work.old) (window y_at len work.old)) (window v_at len work.old) }
{
    let y_end = y_at + len;
    let v_end = v_at + len;
    let m = len / 4;
    let acc = axpy_dot_blocks(work, y_at, x_at, v_at, m, a);
    vectors::axpy_in(work, y_at + 4 * m, x_at + 4 * m, len % 4, a);
    let w = &work[..];
    dot::joined(acc, &w[y_at..y_end], &w[v_at..v_end])
}
