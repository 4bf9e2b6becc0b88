// The product of two rows.

ghost use Rattle.pm_vector.specs.Numbers.{InRange};
ghost use Rattle.pm_vector.specs.Rows.{dot as dot_of, entry};
ghost use Rattle.pm_vector.specs.Products.{ProductsStay};
ghost use Rattle.std.specs.Prelude.{IfOk, OnErr, OnOk, length, ◌*ℤ◌, ◌+ℤ◌, ◌<◌, ◌≡◌};

use crate::{Wide, plus, times};

/// A sum and the product of the entries at a place.
fn add_product(sum: i128, a: &[i128], b: &[i128], i: usize) -> Result<i128, Wide>
    requires in_a { i < length a.now }
    requires in_b { i < length b.now }
    ensures value { IfOk result (λ r. r ≡ sum +ℤ entry a.now i *ℤ entry b.now i) }
    ensures in_range { IfOk result InRange }
    ensures product_in_range { OnOk result (InRange (entry a.now i *ℤ entry b.now i)) }
    ensures wide { OnErr result (InRange (entry a.now i *ℤ entry b.now i)
        → InRange (sum +ℤ entry a.now i *ℤ entry b.now i) → ⊥) }
{
    let product = times(a[i], b[i])?;
    plus(sum, product)
}

/// The sum of the products of the entries.
/// `Wide` exactly where a product, or the sum of the first few products, is outside of the range.
pub fn dot(a: &[i128], b: &[i128]) -> Result<i128, Wide>
    requires { length a.now ≡ length b.now }
    ensures value { IfOk result (λ r. r ≡ dot_of a.now b.now) }
    ensures in_range { IfOk result InRange }
    ensures stays { OnOk result (ProductsStay a.now b.now) }
    ensures wide { OnErr result (ProductsStay a.now b.now → ⊥) }
{
    let mut sum = 0i128;
    for i in 0..a.len() {
        sum = add_product(sum, a, b, i)?;
    }
    Ok(sum)
}
