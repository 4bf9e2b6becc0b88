// The combination of two rows, made primitive, by numbers of 512 bits on the way.

ghost use Rattle.pm_vector.specs.Divisors.{IsGcdOf, IsPrimitiveOf};
ghost use Rattle.pm_vector.specs.Numbers.{InRange};
ghost use Rattle.pm_vector.specs.Rows.{Row, difference, entry};
ghost use Rattle.pm_vector.specs.Multiples.{AreQuotients, HaveQuotients};
ghost use Rattle.pm_vector.specs.Magnitudes.{magnitude_of};
ghost use Rattle.pm_vector.specs.WideInts.{IsFactor, value_of};
ghost use Rattle.std.specs.Int.{◌∣◌};
ghost use Rattle.std.specs.Prelude.{All, IfNone, IfOk, IfSome, length, map, unsigned_abs, ◌*ℤ◌, ◌-ℤ◌, ◌<◌, ◌≡◌, ◌⊎◌, ℕ};

use crate::{Ints, Magnitude, WideInt};
use std::alloc::{AllocError, Global};

/// p x.
fn product(p: WideInt, x: i128) -> WideInt
    requires { IsFactor (value_of p) }
    ensures { value_of result ≡ value_of p *ℤ x }
{
    let Some(made) = p.times(WideInt::of(x)) else {
        unreachable!()
    };
    made
}

/// p x - q y.
fn difference_of_products(p: WideInt, x: i128, q: WideInt, y: i128) -> WideInt
    requires p_factor { IsFactor (value_of p) }
    requires q_factor { IsFactor (value_of q) }
    ensures { value_of result ≡ value_of p *ℤ x -ℤ value_of q *ℤ y }
{
    let first = product(p, x);
    let second = product(q, y);
    let Some(made) = first.minus(second) else {
        unreachable!()
    };
    made
}

/// The entries of p v - q w.
fn differences(
    alloc: Global,
    p: WideInt,
    v: &[i128],
    q: WideInt,
    w: &[i128],
) -> Result<Vec<WideInt>, AllocError>
    requires p_factor { IsFactor (value_of p) }
    requires q_factor { IsFactor (value_of q) }
    requires same_length { length v.now ≡ length w.now }
    ensures { IfOk result (λ made. map value_of made.items ≡ difference (value_of p) v.now (value_of q) w.now) }
{
    let mut made = Vec::with_capacity(alloc, v.len())?;
    for i in 0..v.len() {
        made.push(difference_of_products(p, v[i], q, w[i]))?;
    }
    Ok(made)
}

/// The greatest common divisor of numbers; that of zeros alone is 0.
fn gcd_of_all(numbers: &[WideInt]) -> Magnitude
    ensures { IsGcdOf (map value_of numbers.now) (magnitude_of result) }
{
    let mut divisor = Magnitude::of_digit(0);
    for number in numbers {
        divisor = number.gcd_with(divisor);
    }
    divisor
}

/// A number, or 1 for 0.
fn at_least_one(g: Magnitude) -> Magnitude
    ensures { ((magnitude_of g ≡ 0) × (magnitude_of result ≡ 1))
        ⊎ ((0 < magnitude_of g) × (magnitude_of result ≡ magnitude_of g)) }
{
    if g.is_zero() {
        return Magnitude::of_digit(1);
    }
    g
}

/// The quotients of numbers by a divisor of all. `None` exactly where one is out of the range.
fn quotients(alloc: Global, numbers: &[WideInt], d: Magnitude) -> Result<Option<Ints>, AllocError>
    requires positive { 0 < magnitude_of d }
    requires divisor { (i : ℕ) → magnitude_of d ∣ unsigned_abs (entry (map value_of numbers.now) i) }
    ensures quotients { IfOk result (λ o. IfSome o (AreQuotients (map value_of numbers.now) (magnitude_of d))) }
    ensures none { IfOk result (λ o. IfNone o
        (HaveQuotients (map value_of numbers.now) (magnitude_of d) (length numbers.now) → ⊥)) }
{
    let mut made = Vec::with_capacity(alloc, numbers.len())?;
    for number in numbers {
        let Some(quotient) = number.divided_by(d).narrow() else {
            return Ok(None);
        };
        made.push(quotient)?;
    }
    Ok(Some(Ints::from_vec(made)))
}

/// The primitive row in the direction of p v - q w, which is zero where that is. The factors have at most 320 bits, as
/// the product of two rows has. `None` exactly where an entry of that row is out of the range.
pub fn primitive_combination(
    alloc: Global,
    p: WideInt,
    v: &Ints,
    q: WideInt,
    w: &Ints,
) -> Result<Option<Ints>, AllocError>
    requires p_factor { IsFactor (value_of p) }
    requires q_factor { IsFactor (value_of q) }
    requires same_length { length v.now ≡ length w.now }
    ensures primitive { IfOk result (λ o.
        IfSome o (IsPrimitiveOf (difference (value_of p) v.now (value_of q) w.now))) }
    ensures wide { IfOk result (λ o. IfNone o ((u : Row)
        → IsPrimitiveOf (difference (value_of p) v.now (value_of q) w.now) u → All InRange u → ⊥)) }
{
    let numbers = differences(alloc, p, v.as_slice(), q, w.as_slice())?;
    let divisor = at_least_one(gcd_of_all(&numbers));
    quotients(alloc, &numbers, divisor)
}
