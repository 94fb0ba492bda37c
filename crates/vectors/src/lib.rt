// Kernels on dense vectors of doubles. Those that end in `_in` read and write windows of one slice.
#![tactic(auto)]

ghost use Rattle.std.specs.Prelude.{◌≡◌, ◌+◌, ◌*◌, ◌≤◌, length, replicate};
ghost use Rattle.lists.specs.Window.{window, splice};
ghost use Rattle.lists.specs.Bounds.{Apart};
ghost use Rattle.doubles.specs.F64.{+0, at};
ghost use Rattle.vectors.specs.Vectors.{axpy, scale};

// y[i] = y[i] * s
pub fn scale(y: &mut [f64], s: f64)
    ensures { y.new ≡ scale s y.old }
{
    for x in y.iter_mut() {
        *x = *x * s;
    }
}

// w[i] = +0
pub fn clear(w: &mut [f64])
    ensures { w.new ≡ replicate (length w.old) +0 }
{
    w.fill(0.0);
}

// work[y_at + i] = work[y_at + i] + a * work[x_at + i]. By index, as the next: either window may come first, and `split_at_mut` takes 1.23 of the time.
pub fn axpy_in(work: &mut [f64], y_at: usize, x_at: usize, len: usize, a: f64)
    requires len_in_bounds { y_at + len ≤ length work.old }
    requires len_in_bounds_2 { x_at + len ≤ length work.old }
    requires apart { Apart y_at x_at len }
    ensures { work.new ≡ splice y_at (axpy a (window x_at len work.old) (window y_at len work.old)) work.old }
{
    for i in 0..len {
        work[y_at + i] = work[y_at + i] + a * work[x_at + i];
    }
}

// work[dst_at + i] = work[src_at + i] * s
pub fn scaled_in(work: &mut [f64], dst_at: usize, src_at: usize, len: usize, s: f64)
    requires len_in_bounds { dst_at + len ≤ length work.old }
    requires len_in_bounds_2 { src_at + len ≤ length work.old }
    requires apart { Apart dst_at src_at len }
    ensures { work.new ≡ splice dst_at (scale s (window src_at len work.old)) work.old }
{
    for i in 0..len {
        work[dst_at + i] = work[src_at + i] * s;
    }
}

// work[to + i] = work[from + i], and no `copy_within`, for which an archive for C would need memmove from outside
pub fn copy_in(work: &mut [f64], to: usize, from: usize, len: usize)
    requires len_in_bounds { to + len ≤ length work.old }
    requires len_in_bounds_2 { from + len ≤ length work.old }
    requires apart { Apart to from len }
    ensures { work.new ≡ splice to (window from len work.old) work.old }
{
    for i in 0..len {
        work[to + i] = work[from + i];
    }
}

// work[at + i] = +0
#[tactic(auto, using(lists::proofs::Window::part_filled))]
pub fn clear_in(work: &mut [f64], at: usize, len: usize)
    requires { at + len ≤ length work.old }
    ensures { work.new ≡ splice at (replicate len +0) work.old }
{
    work[at..at + len].fill(0.0);
}

// dst[to + i] = src[from + i], and no `copy_from_slice`, for the same reason
pub fn copy_from(dst: &mut [f64], to: usize, src: &[f64], from: usize, len: usize)
    requires len_in_bounds { to + len ≤ length dst.old }
    requires len_in_bounds_2 { from + len ≤ length src.now }
    ensures { dst.new ≡ splice to (window from len src.now) dst.old }
{
    for i in 0..len {
        dst[to + i] = src[from + i];
    }
}
