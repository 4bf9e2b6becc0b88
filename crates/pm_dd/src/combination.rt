// The combination of two rays that vanishes on the next row.

ghost use Rattle.pm_vector.specs.Divisors.{IsPrimitiveOf};
ghost use Rattle.pm_vector.specs.Numbers.{InRange};
ghost use Rattle.pm_vector.specs.Products.{ProductsStay};
ghost use Rattle.pm_vector.specs.Rows.{difference, dot as dot_of};
ghost use Rattle.pm_dd.specs.Building.{IsCombination, StandsFor};
ghost use Rattle.pm_dd.specs.Lost.{CombinationIsLost, IfCombinationLost};
ghost use Rattle.pm_dd.specs.StepFails.{IfColumn, IsCombinationFail, IsWideFactors};
ghost use Rattle.std.specs.Prelude.{IfErr, IfNone, IfOk, IfSome, length, pos, true, ◌<ℤ◌, ◌≡◌};

use crate::fails::CombinationFail;
use pm_elim::cancelling_factors;
use pm_vector::{
    Ints, Wide, combine, dot, first_wide_place, primitive, primitive_combination, wide_dot,
};
use std::alloc::{AllocError, Global};

/// The product of a row with a ray, where it is in the range, from the number that stands for it.
fn exact_product(row: &Ints, ray: &Ints, value: i128) -> Option<i128>
    requires cols { length row.now ≡ length ray.now }
    requires stands { StandsFor (dot_of row.now ray.now) value }
    ensures exact { IfSome result (λ z. z ≡ dot_of row.now ray.now) }
    ensures in_range { IfSome result InRange }
    ensures none { IfNone result (¬ (ProductsStay row.now ray.now)) }
{
    if -i128::MAX < value && value < i128::MAX {
        return Some(value);
    }
    dot(row.as_slice(), ray.as_slice()).ok()
}

/// The primitive row in the direction of p down - q up, by numbers of the range alone.
fn narrow_combination(
    alloc: Global,
    up: &Ints,
    p: i128,
    down: &Ints,
    q: i128,
) -> Result<Ints, CombinationFail>
    requires up_in_range { InRange p }
    requires down_in_range { InRange q }
    requires positive { pos 0 <ℤ p }
    requires cols { length down.now ≡ length up.now }
    ensures combination { IfOk result (λ w. IsPrimitiveOf (difference p down.now q up.now) w) }
    ensures wide { IfErr result (λ f. IfColumn f (λ c. IsWideFactors up.now p down.now q c)) }
{
    let factors = cancelling_factors(q, p);
    let mut made = down.copy(alloc)?;
    let Ok(()) = combine(factors.first, &mut made, factors.second, up) else {
        let Some(column) = first_wide_place(
            factors.first,
            made.as_slice(),
            factors.second,
            up.as_slice(),
        ) else {
            unreachable!()
        };
        return Err(CombinationFail::Column(column));
    };
    primitive(&mut made);
    Ok(made)
}

/// The combination of two rays that vanishes on a row, made primitive, where their products with it are in the range,
/// by numbers of the range alone.
fn exact_combination(
    alloc: Global,
    row: &Ints,
    up: &Ints,
    up_value: i128,
    down: &Ints,
    down_value: i128,
) -> Result<Ints, CombinationFail>
    requires up_cols { length row.now ≡ length up.now }
    requires down_cols { length row.now ≡ length down.now }
    requires up_stands { StandsFor (dot_of row.now up.now) up_value }
    requires down_stands { StandsFor (dot_of row.now down.now) down_value }
    requires positive { pos 0 <ℤ dot_of row.now up.now }
    ensures combination { IfOk result (λ w. IsCombination row.now up.now down.now w) }
    ensures fail { IfErr result (λ f. IsCombinationFail row.now up.now down.now f) }
{
    let Some(p) = exact_product(row, up, up_value) else {
        return Err(CombinationFail::First);
    };
    let Some(q) = exact_product(row, down, down_value) else {
        return Err(CombinationFail::Second);
    };
    narrow_combination(alloc, up, p, down, q)
}

/// The combination of two rays that vanishes on a row, made primitive, by wide numbers on the way. `None` where it
/// leaves the range.
fn wide_combination(
    alloc: Global,
    row: &Ints,
    up: &Ints,
    down: &Ints,
) -> Result<Option<Ints>, AllocError>
    requires up_cols { length row.now ≡ length up.now }
    requires down_cols { length row.now ≡ length down.now }
    ensures combination { IfOk result (λ o. IfSome o (λ w. IsCombination row.now up.now down.now w)) }
    ensures lost { IfOk result (λ o. IfNone o (CombinationIsLost row.now up.now down.now)) }
{
    let p = wide_dot(row.as_slice(), up.as_slice());
    let q = wide_dot(row.as_slice(), down.as_slice());
    primitive_combination(alloc, p, down, q, up)
}

/// The combination of two rays that vanishes on a row, made primitive; with `wide` by wide numbers where those of the
/// range do not suffice. A number stands for the product of the row with each ray.
pub(crate) fn combination_of(
    alloc: Global,
    row: &Ints,
    up: &Ints,
    up_value: i128,
    down: &Ints,
    down_value: i128,
    wide: bool,
) -> Result<Ints, CombinationFail>
    requires up_cols { length row.now ≡ length up.now }
    requires down_cols { length row.now ≡ length down.now }
    requires up_stands { StandsFor (dot_of row.now up.now) up_value }
    requires down_stands { StandsFor (dot_of row.now down.now) down_value }
    requires positive { pos 0 <ℤ dot_of row.now up.now }
    ensures combination { IfOk result (λ w. IsCombination row.now up.now down.now w) }
    ensures fail { IfErr result (λ f. IsCombinationFail row.now up.now down.now f) }
    ensures lost { wide ≡ true → IfErr result (λ f.
        IfCombinationLost f (CombinationIsLost row.now up.now down.now)) }
{
    let fail = match exact_combination(alloc, row, up, up_value, down, down_value) {
        Ok(made) => return Ok(made),
        Err(fail) => fail,
    };
    if !wide {
        return Err(fail);
    }
    match wide_combination(alloc, row, up, down)? {
        Some(made) => Ok(made),
        None => Err(fail),
    }
}
