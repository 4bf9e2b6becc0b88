// The row of the sum of two points.

ghost use Rattle.pm_vector.specs.Numbers.{InRange};
ghost use Rattle.pm_vector.specs.Rows.{entry};
ghost use Rattle.pm_build.specs.SumSteps.{AreFactors, ColumnStays, IsSumBefore, IsSumRow, sum_entry};
ghost use Rattle.pm_build.specs.Sums.{IsWideSum};
ghost use Rattle.std.specs.Int.{◌∣◌};
ghost use Rattle.std.specs.Prelude.{IfErr, IfOk, OnErr, OnOk, length, pos, unsigned_abs, ◌*ℤ◌, ◌<◌, ◌<ℤ◌, ◌≡◌, ◌≤◌};
ghost use Rattle.pm_limits.specs.Limits.{most_columns};

use crate::fails::SumFail;
use pm_fraction::Fraction;
use pm_types::over_first;
use pm_vector::{Ints, Wide, gcd, plus, times};
use std::alloc::{AllocError, Global};

/// What two rows are multiplied by before they are added, so that their first entries are the same.
#[derive(Clone, Copy)]
pub(crate) struct Factors {
    pub(crate) first: i128,
    pub(crate) second: i128,
}

/// The quotient of a positive number and a divisor of it.
fn part(number: i128, divisor: u128) -> i128
    requires positive { pos 0 <ℤ number }
    requires in_range { InRange number }
    requires divisor { divisor ∣ unsigned_abs number }
    ensures value { number ≡ result *ℤ pos divisor }
    ensures in_range { InRange result }
{
    (number.unsigned_abs() / divisor) as i128
}

/// The factors of two rows with positive first entries.
fn factors_of(v: &Ints, w: &Ints) -> Factors
    requires some { 0 < length v.now }
    requires second_some { 0 < length w.now }
    requires first { pos 0 <ℤ entry v.now 0 }
    requires second { pos 0 <ℤ entry w.now 0 }
    ensures factors { AreFactors v.now w.now result.first result.second }
    ensures in_range { InRange result.first × InRange result.second }
{
    let first = v.get(0);
    let second = w.get(0);
    let divisor = gcd(first.unsigned_abs(), second.unsigned_abs());
    Factors {
        first: part(second, divisor),
        second: part(first, divisor),
    }
}

/// An entry of the row of the sum, before it is divided.
fn sum_entry(f: Factors, v: &Ints, w: &Ints, k: usize) -> Result<i128, Wide>
    requires first { k < length v.now }
    requires second { k < length w.now }
    requires factors { InRange f.first × InRange f.second }
    ensures value { IfOk result (λ z. z ≡ sum_entry f.first f.second v.now w.now k) }
    ensures in_range { IfOk result InRange }
    ensures stays { OnOk result (ColumnStays f.first f.second v.now w.now k) }
    ensures wide { OnErr result (ColumnStays f.first f.second v.now w.now k → ⊥) }
{
    if k == 0 {
        return times(v.get(0), f.first);
    }
    let x = times(f.first, v.get(k))?;
    let y = times(f.second, w.get(k))?;
    plus(x, y)
}

/// The refusal of a sum in a column.
fn wide_sum(alloc: Global, v: &Ints, w: &Ints, column: u32) -> Result<SumFail, AllocError>
    ensures { IfOk result (λ f. f ≡ SumFail.Wide v.now w.now column) }
{
    Ok(SumFail::Wide {
        first: v.copy(alloc)?,
        second: w.copy(alloc)?,
        column,
    })
}

/// The row of the sum, before it is divided.
fn sum_before(alloc: Global, f: Factors, v: &Ints, w: &Ints) -> Result<Ints, SumFail>
    requires cols { length w.now ≡ length v.now }
    requires few { length v.now ≤ most_columns }
    requires factors { AreFactors v.now w.now f.first f.second }
    requires in_range { InRange f.first × InRange f.second }
    ensures value { IfOk result (λ x. IsSumBefore f.first f.second v.now w.now x) }
    ensures wide { IfErr result (IsWideSum v.now w.now) }
{
    let mut row = Ints::new(alloc);
    for k in 0..v.len() {
        match sum_entry(f, v, w, k) {
            Ok(x) => row.push(x)?,
            Err(Wide) => return Err(wide_sum(alloc, v, w, k as u32)?),
        }
    }
    Ok(row)
}

/// The row of the sum of the points of two rows.
pub(crate) fn sum_row(alloc: Global, v: &Ints, w: &Ints) -> Result<Vec<Fraction>, SumFail>
    requires cols { length w.now ≡ length v.now }
    requires some { 0 < length v.now }
    requires few { length v.now ≤ most_columns }
    requires first { pos 0 <ℤ entry v.now 0 }
    requires second { pos 0 <ℤ entry w.now 0 }
    ensures value { IfOk result (λ r. IsSumRow v.now w.now r.items) }
    ensures wide { IfErr result (IsWideSum v.now w.now) }
{
    let before = sum_before(alloc, factors_of(v, w), v, w)?;
    Ok(over_first(alloc, &before)?)
}
