// Numbers, counts and doubles written as little-endian bytes.
#![tactic(auto)]

ghost use Rattle.std.specs.Prelude.{◌≡◌, ◌&&◌, List, ℕ, ◌+◌, ◌*◌, ◌/◌, ◌%◌, ◌≤◌, length, get_or};
ghost use Rattle.std.specs.Float.{binary64};
ghost use Rattle.std.specs.Float.Ieee.{nan, is_nan, to_bits};
ghost use Rattle.lists.specs.Loop.{tabulate};
ghost use Rattle.lists.specs.Window.{splice};
ghost use Rattle.le_bytes.specs.Bytes.{double_at, numbers_over, words_over, byte_over, written_over};
ghost use Rattle.pack_bytes.specs.Elements.{number_byte, number_from_here, numbers_put, words_put, double_from_here, doubles_put};

use le_bytes::LittleEndian;

pub fn pattern(x: f64) -> u64
    ensures { result ≡ to_bits binary64 x }
{
    if x.is_nan() {
        return 0x7ff8_0000_0000_0000;
    }
    x.to_bits()
}

// A NaN over a NaN.
fn stays(x: f64, b: &[u8], p: usize) -> bool
    requires { p + 8 ≤ length b.now }
    ensures { result ≡ (is_nan x && is_nan (double_at b.now p)) }
{
    x.is_nan() && le_bytes::double_at(b, p).is_nan()
}

// What is written in SIZE bytes, one behind another.
pub trait Packed: LittleEndian {
    // what a list has beyond its end
    ghost beyond: { Self };

    // byte j of x, written over the bytes from p of b
    ghost byte: { Self → List ℕ → ℕ → ℕ → ℕ };

    ghost list_over: { List Self → List ℕ → List ℕ };

    fn put(self, dst: &mut [u8], p: usize)
        requires { p + Self.SIZE ≤ length dst.old }
        ensures { dst.new ≡ splice p (tabulate Self.SIZE (byte self dst.old p)) dst.old };

    // it depends on the bytes from p alone
    ghost from_here: { (x : Self) (b c : List ℕ) (p j : ℕ) → ((i : ℕ) → p ≤ i → get_or c i 0 ≡ get_or b i 0) → byte x c p j ≡ byte x b p j };

    ghost put_each: { (xs : List Self) (b : List ℕ) → list_over xs b ≡ splice 0 (tabulate (Self.SIZE * length xs) (λ i. byte (get_or xs (i / Self.SIZE) beyond) b (Self.SIZE * (i / Self.SIZE)) (i % Self.SIZE))) b };
}

impl Packed for u32 {
    ghost beyond = { 0 };

    ghost byte = { number_byte };

    ghost list_over = { numbers_over };

    ghost from_here = { number_from_here };

    ghost put_each = { numbers_put };

    fn put(self, dst: &mut [u8], p: usize) {
        dst[p..p + 4].copy_from_slice(&self.to_le_bytes());
    }
}

impl Packed for usize {
    ghost beyond = { 0 };

    ghost byte = { number_byte };

    ghost list_over = { words_over };

    ghost from_here = { number_from_here };

    ghost put_each = { words_put };

    fn put(self, dst: &mut [u8], p: usize) {
        dst[p..p + 8].copy_from_slice(&self.to_le_bytes());
    }
}

impl Packed for f64 {
    ghost beyond = { nan };

    ghost byte = { byte_over };

    ghost list_over = { written_over };

    ghost from_here = { double_from_here };

    ghost put_each = { doubles_put };

    fn put(self, dst: &mut [u8], p: usize) {
        if stays(self, dst, p) {
            return;
        }
        let w = pattern(self);
        dst[p..p + 8].copy_from_slice(&w.to_le_bytes());
    }
}

// Written over the front of dst.
pub fn pack<T: Packed>(src: &[T], dst: &mut [u8])
    requires { T.SIZE * length src.now ≤ length dst.old }
    ensures { dst.new ≡ T.list_over src.now dst.old }
{
    for (k, x) in src.iter().enumerate() {
        x.put(dst, T::SIZE * k);
    }
}
