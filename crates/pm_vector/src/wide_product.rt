// The product of two rows, by wide numbers.

ghost use Rattle.pm_vector.specs.Rows.{dot as dot_of, entry};
ghost use Rattle.pm_vector.specs.WideInts.{IsFactor, value_of};
ghost use Rattle.std.specs.Prelude.{length, unsigned_abs, ◌*ℤ◌, ◌*◌, ◌+ℤ◌, ◌+◌, ◌<◌, ◌^◌, ◌≡◌, ◌≤◌};

use crate::WideInt;

/// A sum of so many products, and one product more.
fn add_product(sum: WideInt, a: &[i128], b: &[i128], i: usize) -> WideInt
    requires in_a { i < length a.now }
    requires in_b { i < length b.now }
    requires small { unsigned_abs (value_of sum) ≤ i * 2 ^ 254 }
    ensures value { value_of result ≡ value_of sum +ℤ entry a.now i *ℤ entry b.now i }
    ensures small { unsigned_abs (value_of result) ≤ (i + 1) * 2 ^ 254 }
{
    let Some(made) = sum.plus(WideInt::product(a[i], b[i])) else {
        unreachable!()
    };
    made
}

/// The sum of the products of the entries. It always fits: each product has at most 255 bits, and there are fewer than
/// 2^64 of them; so it has at most 320 bits.
pub fn wide_dot(a: &[i128], b: &[i128]) -> WideInt
    requires { length a.now ≡ length b.now }
    ensures value { value_of result ≡ dot_of a.now b.now }
    ensures small { IsFactor (value_of result) }
{
    let mut sum = WideInt::of(0);
    for i in 0..a.len() {
        sum = add_product(sum, a, b, i);
    }
    sum
}
