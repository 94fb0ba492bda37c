// Numbers and doubles as bytes, lowest first.
#![tactic(auto)]

ghost use Rattle.std.specs.Prelude.{◌≡◌, List, ℕ, ◌+◌, ◌*◌, ◌/◌, ◌≤◌, ◌<◌, length};
ghost use Rattle.std.specs.Float.{binary64};
ghost use Rattle.std.specs.Float.Ieee.{of_bits};
ghost use Rattle.std.proofs.Common.{rules};
ghost use Rattle.lists.specs.Loop.{tabulate};
ghost use Rattle.le_bytes.specs.Bytes.{half, word, double_at, numbers_of, doubles_of, words_of};
ghost use Rattle.le_bytes.specs.Elements.{numbers_each, words_each, doubles_each};

#[tactic(auto, unfolding(crate::specs::Bytes::half))]
pub fn half_at(b: &[u8], k: usize) -> u64
    requires { k + 4 ≤ length b.now }
    ensures { (result ≡ half b.now k) × (result < 4294967296) }
{
    let bytes = [b[k], b[k + 1], b[k + 2], b[k + 3]];
    u64::from(u32::from_le_bytes(bytes))
}

// The double of a pattern: of every NaN pattern, the one NaN.
fn double(w: u64) -> f64
    ensures { result ≡ of_bits binary64 w }
{
    if w % 0x8000_0000_0000_0000 > 0x7ff0_0000_0000_0000 {
        return float::not_a_number();
    }
    f64::from_bits(w)
}

fn word_at(b: &[u8], k: usize) -> u64
    requires { k + 8 ≤ length b.now }
    ensures { result ≡ word b.now k }
{
    half_at(b, k) + 4294967296 * half_at(b, k + 4)
}

pub fn double_at(b: &[u8], k: usize) -> f64
    requires { k + 8 ≤ length b.now }
    ensures { result ≡ double_at b.now k }
{
    double(word_at(b, k))
}

// What is stored in SIZE bytes, one behind another: numbers of four bytes and of eight, and doubles.
pub trait LittleEndian: Copy + Default {
    const SIZE: usize;

    ghost SIZE: { ℕ };

    ghost read: { List ℕ → ℕ → Self };

    ghost list_of: { List ℕ → List Self };

    fn read(b: &[u8], k: usize) -> Self
        requires { k + SIZE ≤ length b.now }
        ensures { result ≡ read b.now k };

    ghost has_bytes: { 0 < SIZE };

    ghost read_each: { (b : List ℕ) → list_of b ≡ tabulate (length b / SIZE) (λ k. read b (SIZE * k)) };
}

impl LittleEndian for u32 {
    const SIZE: usize = 4;

    ghost SIZE = { 4 };

    ghost read = { half };

    ghost list_of = { numbers_of };

    ghost has_bytes = { Prim.search rules };

    ghost read_each = { numbers_each };

    fn read(b: &[u8], k: usize) -> u32 {
        half_at(b, k) as u32
    }
}

impl LittleEndian for usize {
    const SIZE: usize = 8;

    ghost SIZE = { 8 };

    ghost read = { word };

    ghost list_of = { words_of };

    ghost has_bytes = { Prim.search rules };

    ghost read_each = { words_each };

    fn read(b: &[u8], k: usize) -> usize {
        word_at(b, k) as usize
    }
}

impl LittleEndian for f64 {
    const SIZE: usize = 8;

    ghost SIZE = { 8 };

    ghost read = { double_at };

    ghost list_of = { doubles_of };

    ghost has_bytes = { Prim.search rules };

    ghost read_each = { doubles_each };

    fn read(b: &[u8], k: usize) -> f64 {
        double_at(b, k)
    }
}

// The whole elements.
pub fn unpack<T: LittleEndian>(src: &[u8], dst: &mut [T])
    requires { length dst.old ≡ length src.now / T.SIZE }
    ensures { dst.new ≡ T.list_of src.now }
{
    for (k, x) in dst.iter_mut().enumerate() {
        *x = T::read(src, T::SIZE * k);
    }
}
