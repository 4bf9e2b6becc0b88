// The primitive whole row of a row of fractions.

ghost use Rattle.pm_vector.specs.Divisors.{IsPrimitive};
ghost use Rattle.pm_vector.specs.Numbers.{InRange, IsReduced, Ratio};
ghost use Rattle.pm_vector.specs.Rows.{IsZero, Stands, ratio_at};
ghost use Rattle.pm_fraction.specs.FractionRows.{IsLeastDenominator, IsPrimitiveRowOf, numerator_over, numerators_over};
ghost use Rattle.pm_fraction.specs.Multiples.{IsLcm};
ghost use Rattle.pm_fraction.specs.Wideness.{DenominatorsStay, IsWideAt, IsWideInRow, NumeratorsStay, RowStays};
ghost use Rattle.std.specs.Prelude.{IfErr, IfNone, IfOk, IfSome, OnOk, length, pos, unsigned_abs, ℕ, ◌/◌, ◌^◌, ◌<◌, ◌≡◌, ◌≤◌, ◌⊎◌};

use crate::fraction::Fraction;
use crate::{RowFail, RowsFail};
use pm_vector::{Ints, Wide, gcd, primitive, times};
use std::alloc::Global;

/// The first number above the range.
const RANGE_END: u128 = 1 << 127;

/// The least common multiple of two positive numbers, where it is in the range.
fn lcm(a: u128, b: u128) -> Option<u128>
    requires { 0 < a }
    ensures some { IfSome result (IsLcm a b) }
    ensures in_range { IfSome result (λ m. m < 2 ^ 127) }
    ensures none { IfNone result ((m : ℕ) → IsLcm a b m → 2 ^ 127 ≤ m) }
{
    let divisor = gcd(a, b);
    let multiple = (a / divisor).checked_mul(b)?;
    if multiple < RANGE_END {
        Some(multiple)
    } else {
        None
    }
}

/// The least common multiple of a number and the next denominator.
fn next_denominator(least: u128, f: Fraction) -> Result<u128, RowFail>
    requires some { 0 < least }
    requires in_range { least < 2 ^ 127 }
    ensures value { IfOk result (IsLcm least (unsigned_abs f.den)) }
    ensures in_range { IfOk result (λ m. m < 2 ^ 127) }
    ensures reduced { IsReduced f }
    ensures wide { IfErr result (λ e. (e ≡ RowFail.Wide (pos least) f.den)
        × ((m : ℕ) → IsLcm least (unsigned_abs f.den) m → 2 ^ 127 ≤ m)) }
{
    let den = f.den();
    match lcm(least, den.unsigned_abs()) {
        Some(next) => Ok(next),
        None => Err(RowFail::Wide {
            first: least as i128,
            second: den,
        }),
    }
}

/// The least common multiple of the denominators.
fn common_denominator(row: &[Fraction]) -> Result<u128, RowFail>
    ensures least { IfOk result (IsLeastDenominator row.now (length row.now)) }
    ensures positive { IfOk result (λ m. 0 < m) }
    ensures reduced { OnOk result ((i : ℕ) → i < length row.now → IsReduced (ratio_at row.now i)) }
    ensures in_range { IfOk result (λ m. m < 2 ^ 127) }
    ensures stays { OnOk result (DenominatorsStay row.now (length row.now)) }
    ensures wide { IfErr result (IsWideAt row.now) }
{
    let mut least = 1u128;
    for i in 0..row.len() {
        least = next_denominator(least, row[i])?;
    }
    Ok(least)
}

/// The numerator over a common denominator.
fn scaled_numerator(m: u128, f: Fraction) -> Result<i128, RowFail>
    requires { m < 2 ^ 127 }
    ensures value { IfOk result (λ n. n ≡ numerator_over m f) }
    ensures in_range { IfOk result InRange }
    ensures wide { IfErr result (λ e. (e ≡ RowFail.Wide f.num (pos (m / unsigned_abs f.den)))
        × (InRange (numerator_over m f) → ⊥)) }
{
    let num = f.num();
    let factor = (m / f.den().unsigned_abs()) as i128;
    match times(num, factor) {
        Ok(product) => Ok(product),
        Err(Wide) => Err(RowFail::Wide {
            first: num,
            second: factor,
        }),
    }
}

/// The numerators over a common denominator.
fn scaled_numerators(alloc: Global, row: &[Fraction], m: u128) -> Result<Ints, RowFail>
    requires least { IsLeastDenominator row.now (length row.now) m }
    requires in_range { m < 2 ^ 127 }
    requires stays { DenominatorsStay row.now (length row.now) }
    ensures value { IfOk result (λ x. x ≡ numerators_over m row.now) }
    ensures stays { OnOk result (NumeratorsStay row.now m (length row.now)) }
    ensures wide { IfErr result (IsWideAt row.now) }
{
    let mut numerators = Ints::from_vec(Vec::with_capacity(alloc, row.len())?);
    for i in 0..row.len() {
        numerators.push(scaled_numerator(m, row[i])?)?;
    }
    Ok(numerators)
}

/// The primitive whole row of a row of fractions: the numerators over the least common denominator, divided by their
/// greatest common divisor; a zero row stays zero. `Wide` exactly where a number on the way is out of the range, with
/// the two that make the first such number.
pub fn primitive_row(alloc: Global, row: &[Fraction]) -> Result<Ints, RowFail>
    ensures value { IfOk result (IsPrimitiveRowOf row.now) }
    ensures multiple { IfOk result (Stands row.now) }
    ensures primitive { IfOk result (λ x. IsZero x ⊎ IsPrimitive x) }
    ensures stays { OnOk result (RowStays row.now) }
    ensures wide { IfErr result (IsWideAt row.now) }
{
    let least = common_denominator(row)?;
    let mut numerators = scaled_numerators(alloc, row, least)?;
    primitive(&mut numerators);
    Ok(numerators)
}

/// The same for a row of a matrix.
pub(crate) fn primitive_row_at(
    alloc: Global,
    row: &[Fraction],
    place: u32,
) -> Result<Ints, RowsFail>
    ensures value { IfOk result (IsPrimitiveRowOf row.now) }
    ensures multiple { IfOk result (Stands row.now) }
    ensures stays { OnOk result (RowStays row.now) }
    ensures wide { IfErr result (IsWideInRow row.now place) }
{
    match primitive_row(alloc, row) {
        Ok(numerators) => Ok(numerators),
        Err(RowFail::Wide { first, second }) => Err(RowsFail::Wide {
            row: place,
            first,
            second,
        }),
        Err(RowFail::Memory) => Err(RowsFail::Memory),
    }
}
