// What the exports on bytes share: which jobs are large, slices cut to the local arrays, and the arrays.
#![tactic(auto)]

ghost use Rattle.std.specs.Prelude.{◌≡◌, false, cond, ◌/◌, ◌≤◌, length, take};
ghost use Rattle.byte_arrays.specs.Large.{large};
ghost use Rattle.byte_arrays.specs.Inner.{Cut, long_told, lengths_told};

use le_bytes::LittleEndian;

// By lengths in bytes.
#[tactic(auto, unfolding(crate::specs::Large::large))]
pub fn large(n: usize, vals: usize, work: usize) -> bool
    ensures value { result ≡ large n vals work }
    ensures n_bound { result ≡ false → (n ≤ 64) × (vals / 8 ≤ 512) × (work / 8 ≤ 4096) }
{
    n > 64 || vals / 8 > 512 || work / 8 > 4096
}

// A slice is cut to `most` bytes.
pub fn part(len: usize, most: usize) -> usize
    ensures { (result ≤ len) × (result ≤ most) × Cut len most result }
{
    if len > most { most } else { len }
}

// Without a mass none of its slice is read.
pub fn used(with_mass: bool, mass: usize) -> usize
    ensures { (result ≡ cond with_mass mass 0) × (result ≤ mass) }
{
    if with_mass { mass } else { 0 }
}

#[tactic(auto, unfolding(crate::specs::Inner::long_told))]
fn long_told(k: u32, len: usize, number: u32, value: f64) -> f64
    ensures { result ≡ long_told k len number value }
{
    if len > 512 && number == k {
        float::count(len)
    } else {
        value
    }
}

// The lengths handed in, where a refusal reports them.
pub fn reported(number: u32, value: f64, starts: usize, mass: usize, out: usize, v: usize) -> f64
    ensures { result ≡ lengths_told starts mass out v number value }
{
    let of_starts = long_told(1, starts, number, value);
    let of_mass = long_told(7, mass, number, of_starts);
    let of_output = long_told(15, out, number, of_mass);
    long_told(16, v, number, of_output)
}

// A slice's elements, at the front of an array.
pub fn array<T: LittleEndian, const N: usize>(src: &[u8]) -> [T; N]
    requires { length src.now / T.SIZE ≤ N }
    ensures { take (length src.now / T.SIZE) result ≡ T.list_of src.now }
{
    let mut array = [T::default(); N];
    let count = src.len() / T::SIZE;
    le_bytes::unpack(src, &mut array[..count]);
    array
}
