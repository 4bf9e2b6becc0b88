// Whole rows as rows of fractions: divided by their first entry, and over 1.

ghost use Rattle.pm_fraction.specs.Fractions.{IsLowestTermsOf, ratio_of};
ghost use Rattle.pm_types.specs.OverFirst.{IsOverFirst};
ghost use Rattle.pm_types.specs.Parts.{as_put};
ghost use Rattle.pm_types.specs.Views.{ratios};
ghost use Rattle.pm_vector.specs.Numbers.{InRange};
ghost use Rattle.pm_vector.specs.Rows.{HasCols, entry};
ghost use Rattle.std.specs.Prelude.{All, IfOk, OnOk, length, map, pos, ◌<ℤ◌, ◌<◌, ◌≡◌};

use pm_fraction::{Fraction, Matrix, MatrixFail};
use pm_vector::Ints;
use std::alloc::{AllocError, Global};

/// The quotient of two numbers of the range, of which the second is positive.
pub fn quotient(number: i128, first: i128) -> Fraction
    requires positive { pos 0 <ℤ first }
    requires in_range { InRange number }
    requires first_in_range { InRange first }
    ensures { IsLowestTermsOf (ratio_of number first) result }
{
    if first == 1 {
        let Ok(whole) = Fraction::from_whole(number) else {
            unreachable!()
        };
        return whole;
    }
    let Ok(quotient) = Fraction::new(number, first) else {
        unreachable!()
    };
    quotient
}

/// A row divided by its first entry.
pub fn over_first(alloc: Global, row: &Ints) -> Result<Vec<Fraction>, AllocError>
    requires some { 0 < length row.now }
    requires first { pos 0 <ℤ entry row.now 0 }
    ensures { IfOk result (λ v. IsOverFirst row.now v.items) }
{
    let mut fractions = Vec::with_capacity(alloc, row.len())?;
    for k in 0..row.len() {
        fractions.push(quotient(row.get(k), row.get(0)))?;
    }
    Ok(fractions)
}

/// A row of whole numbers as fractions over 1.
pub fn over_one(alloc: Global, row: &Ints) -> Result<Vec<Fraction>, AllocError>
    ensures value { IfOk result (λ v. v.items ≡ ratios row.now) }
    ensures in_range { All InRange row.now }
{
    let entries = row.as_slice();
    let mut fractions = Vec::with_capacity(alloc, entries.len())?;
    for x in entries {
        let Ok(fraction) = Fraction::from_whole(*x) else {
            unreachable!()
        };
        fractions.push(fraction)?;
    }
    Ok(fractions)
}

/// Rows of whole numbers as a matrix of fractions over 1; without rows it states no column count.
pub fn matrix_over_one(alloc: Global, rows: &[Ints], cols: usize) -> Result<Matrix, AllocError>
    requires { HasCols cols rows.now }
    ensures rows { IfOk result (λ a. a ≡ as_put cols (map ratios rows.now)) }
    ensures in_range { OnOk result (All (All InRange) rows.now) }
{
    let mut matrix = Matrix::new(alloc, if rows.is_empty() { 0 } else { cols });
    for row in rows {
        let fractions = over_one(alloc, row)?;
        match matrix.push_row(&fractions) {
            Ok(()) => {}
            Err(MatrixFail::Ragged) => unreachable!(),
            Err(MatrixFail::Memory) => return Err(AllocError),
        }
    }
    Ok(matrix)
}
