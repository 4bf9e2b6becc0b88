// Rows without their first coordinate.

ghost use Rattle.pm_fan.specs.Fans.{cut, has_members, with_members};
ghost use Rattle.pm_types.specs.Parts.{cols_over};
ghost use Rattle.std.specs.Prelude.{IfOk, OnOk, [], length, map, suc, ◌++◌, ◌<◌, ◌∷◌, ◌≡◌};

use pm_fraction::{Fraction, Matrix, MatrixFail};
use std::alloc::{AllocError, Global};

/// Puts a row below the others.
fn put_row(matrix: &mut Matrix, row: &[Fraction]) -> Result<(), AllocError>
    requires { length row.now ≡ matrix.old.cols }
    ensures { OnOk result (matrix.new ≡ record {
      cols = matrix.old.cols;
      rows = matrix.old.rows ++ row.now ∷ [];
    }) }
{
    match matrix.push_row(row) {
        Ok(()) => Ok(()),
        Err(MatrixFail::Ragged) => unreachable!(),
        Err(MatrixFail::Memory) => Err(AllocError),
    }
}

/// The same rows; without rows it states no column count.
fn stated(alloc: Global, matrix: Matrix) -> Matrix
    ensures { result ≡ record { cols = cols_over matrix.cols matrix.rows; rows = matrix.rows } }
{
    if matrix.rows() == 0 {
        Matrix::new(alloc, 0)
    } else {
        matrix
    }
}

/// The rows without their first coordinate, n entries each. Without rows it states no column count.
pub(crate) fn cut_rows(alloc: Global, from: &Matrix, n: usize) -> Result<Matrix, AllocError>
    requires { 0 < length from.now.rows → from.now.cols ≡ suc n }
    ensures rows { IfOk result (λ m. m.rows ≡ cut from.now.rows) }
    ensures cols { IfOk result (λ m. m.cols ≡ cols_over n (cut from.now.rows)) }
{
    let mut rows = Matrix::new(alloc, n);
    for place in 0..from.rows() {
        put_row(&mut rows, &from.row(place)[1..])?;
    }
    Ok(stated(alloc, rows))
}

/// The rows whose set has members, without their first coordinate. Without rows it states no column count.
pub(crate) fn cut_rows_with_members(
    alloc: Global,
    sets: &[Vec<u32>],
    from: &Matrix,
    n: usize,
) -> Result<Matrix, AllocError>
    requires as_many { length sets.now ≡ length from.now.rows }
    requires cols { 0 < length from.now.rows → from.now.cols ≡ suc n }
    ensures rows { IfOk result (λ m. m.rows
        ≡ cut (with_members (map (λ s. s.items) sets.now) from.now.rows)) }
    ensures cols { IfOk result (λ m. m.cols
        ≡ cols_over n (cut (with_members (map (λ s. s.items) sets.now) from.now.rows))) }
{
    let mut rows = Matrix::new(alloc, n);
    for (i, set) in sets.iter().enumerate() {
        if !set.is_empty() {
            put_row(&mut rows, &from.row(i)[1..])?;
        }
    }
    Ok(stated(alloc, rows))
}
