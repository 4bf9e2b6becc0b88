// Rows of new objects, one by one.

ghost use Rattle.pm_build.specs.Objects.{put_below};
ghost use Rattle.pm_build.specs.Rows.{headed, unit};
ghost use Rattle.pm_types.specs.Parts.{cols_over};
ghost use Rattle.pm_types.specs.Views.{ratios};
ghost use Rattle.std.specs.Prelude.{IfOk, OnOk, [], length, replicate, ◌+◌, ◌<◌, ◌^◌, ◌∷◌, ◌≡◌, pos};

use pm_fraction::{Fraction, Matrix, MatrixFail};
use std::alloc::{AllocError, Global};

/// Puts a row below the others.
pub(crate) fn put_row(matrix: &mut Matrix, row: &[Fraction]) -> Result<(), AllocError>
    requires { length row.now ≡ matrix.old.cols }
    ensures { OnOk result (matrix.new ≡ put_below matrix.old (row.now ∷ [])) }
{
    match matrix.push_row(row) {
        Ok(()) => Ok(()),
        Err(MatrixFail::Ragged) => unreachable!(),
        Err(MatrixFail::Memory) => Err(AllocError),
    }
}

/// The same rows; without rows it states no column count.
pub(crate) fn stated(alloc: Global, matrix: Matrix) -> Matrix
    ensures { result ≡ record { cols = cols_over matrix.cols matrix.rows; rows = matrix.rows } }
{
    if matrix.rows() == 0 {
        Matrix::new(alloc, 0)
    } else {
        matrix
    }
}

/// The row (1, 0, .., 0) of d + 1 entries.
pub(crate) fn origin_row(alloc: Global, d: usize) -> Result<Vec<Fraction>, AllocError>
    requires { d < 2 ^ 30 }
    ensures { IfOk result (λ v. v.items ≡ ratios (headed (replicate d (pos 0)))) }
{
    let mut row = vec![in alloc; Fraction::zero(); d + 1]?;
    row[0] = Fraction::one();
    Ok(row)
}

/// The row (1, v) of d + 1 entries, where v has the number s at place i and 0 elsewhere.
pub(crate) fn unit_row(
    alloc: Global,
    d: usize,
    i: usize,
    s: Fraction,
) -> Result<Vec<Fraction>, AllocError>
    requires few { d < 2 ^ 30 }
    requires within { i < d }
    requires whole { s.den ≡ pos 1 }
    ensures { IfOk result (λ v. v.items ≡ ratios (headed (unit s.num i d))) }
{
    let mut row = origin_row(alloc, d)?;
    row[i + 1] = s;
    Ok(row)
}
