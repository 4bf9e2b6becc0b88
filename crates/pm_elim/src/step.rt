// One elimination step.

ghost use Rattle.pm_vector.specs.Rows.{entry};
ghost use Rattle.pm_vector.specs.Steps.{IsFactors, IsReducedOnce, StepIsWide, StepStays};
ghost use Rattle.std.specs.Prelude.{IfErr, IfNone, IfSome, IsTrue, OnErr, OnOk, length, pos, ◌<ℤ◌, ◌<◌, ◌≡◌, ◌↔◌};

use crate::factors::{Factors, cancelling_factors};
use pm_vector::{Ints, Wide, combine, first_wide_place, primitive};

/// Whether a row is 0 in a column.
pub(crate) fn is_zero_at(row: &Ints, i: usize) -> bool
    requires { i < length row.now }
    ensures { IsTrue result ↔ (entry row.now i ≡ pos 0) }
{
    row.get(i) == 0
}

/// The factors of the step of a row by a basis row.
pub(crate) fn factors_at(row: &Ints, by: &Ints, pivot: usize) -> Factors
    requires in_row { pivot < length row.now }
    requires in_basis_row { pivot < length by.now }
    requires positive { pos 0 <ℤ entry by.now pivot }
    ensures { IsFactors (entry row.now pivot) (entry by.now pivot) result.first result.second }
{
    cancelling_factors(row.get(pivot), by.get(pivot))
}

/// The first column in which the step of a row by a basis row leaves the range.
pub(crate) fn wide_column(row: &Ints, by: &Ints, pivot: usize) -> Option<usize>
    requires same_length { length row.now ≡ length by.now }
    requires within { pivot < length row.now }
    requires positive { pos 0 <ℤ entry by.now pivot }
    ensures within { IfSome result (λ i. i < length row.now) }
    ensures wide { IfSome result (λ i. StepIsWide row.now by.now pivot i) }
    ensures stays { IfNone result (StepStays row.now by.now pivot) }
{
    if is_zero_at(row, pivot) {
        return None;
    }
    let factors = factors_at(row, by, pivot);
    first_wide_place(factors.first, row.as_slice(), factors.second, by.as_slice())
}

/// Reduces a row by a basis row in its pivot column, where the row is not 0.
/// An error is the first column in which this step leaves the range; the row is then unchanged.
pub(crate) fn reduce_once(row: &mut Ints, by: &Ints, pivot: usize) -> Result<(), usize>
    requires same_length { length row.old ≡ length by.now }
    requires within { pivot < length row.old }
    requires positive { pos 0 <ℤ entry by.now pivot }
    ensures reduced { OnOk result (IsReducedOnce row.old by.now pivot row.new) }
    ensures stays { OnOk result (StepStays row.old by.now pivot) }
    ensures within { IfErr result (λ i. i < length row.old) }
    ensures wide { IfErr result (λ i. StepIsWide row.old by.now pivot i) }
    ensures unchanged { OnErr result (row.new ≡ row.old) }
{
    if is_zero_at(row, pivot) {
        return Ok(());
    }
    let factors = factors_at(row, by, pivot);
    match combine(factors.first, row, factors.second, by) {
        Ok(()) => {
            primitive(row);
            Ok(())
        }
        Err(Wide) => {
            let Some(column) = first_wide_place(
                factors.first,
                row.as_slice(),
                factors.second,
                by.as_slice(),
            ) else {
                unreachable!()
            };
            Err(column)
        }
    }
}
