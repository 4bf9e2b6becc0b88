// Rows of polytopes that are made of others.

ghost use Rattle.pm_build.specs.Objects.{both_rows, padded, product_cols, put_below, pyramid_lines, pyramid_points, spread};
ghost use Rattle.pm_object.specs.Known.{IsKnown, IsOfRows, cols_at};
ghost use Rattle.pm_types.specs.Parts.{cols_over};
ghost use Rattle.pm_build.specs.Rows.{apex_row};
ghost use Rattle.pm_types.specs.Views.{ratios};
ghost use Rattle.pm_props.specs.declared.property.PropId.TheVariants.{LinealitySpace, Vertices};
ghost use Rattle.std.specs.Prelude.{IfOk, OnOk, [], length, map, suc, ◌+◌, ◌<◌, ◌^◌, ◌∷◌, ◌≡◌, ◌≤◌};
ghost use Rattle.pm_limits.specs.Limits.{most_columns};

use crate::rows::{origin_row, put_row};
use pm_fraction::{Fraction, Matrix};
use pm_object::{Object, cols_at, matrix_at};
use pm_types::PropId;
use std::alloc::{AllocError, Global};

/// A row, and k zeros behind it.
fn padded_row(alloc: Global, row: &[Fraction], k: usize) -> Result<Vec<Fraction>, AllocError>
    requires { k < 2 ^ 30 }
    ensures { IfOk result (λ v. v.items ≡ padded k row.now) }
{
    let mut made = Vec::from_slice(alloc, row)?;
    let zeros = vec![in alloc; Fraction::zero(); k]?;
    made.extend_from_slice(&zeros)?;
    Ok(made)
}

/// The first entry of a row, k zeros, and its other entries.
fn spread_row(alloc: Global, row: &[Fraction], k: usize) -> Result<Vec<Fraction>, AllocError>
    requires some { 0 < length row.now }
    requires few { k < 2 ^ 30 }
    ensures { IfOk result (λ v. v.items ≡ spread k row.now) }
{
    let mut made = vec![in alloc; Fraction::zero(); k + 1]?;
    made[0] = row[0];
    made.extend_from_slice(&row[1..])?;
    Ok(made)
}

/// The row (1, 0, .., 0, 1) of n + 1 entries.
fn apex_row(alloc: Global, n: usize) -> Result<Vec<Fraction>, AllocError>
    requires some { 0 < n }
    requires few { n ≤ most_columns }
    ensures { IfOk result (λ v. v.items ≡ ratios (apex_row n)) }
{
    let mut made = origin_row(alloc, n - 1)?;
    made.push(Fraction::one())?;
    Ok(made)
}

/// Puts rows below the others, with k zeros behind each.
fn put_padded(alloc: Global, rows: &mut Matrix, from: &Matrix, k: usize) -> Result<(), AllocError>
    requires cols { 0 < length from.now.rows → from.now.cols + k ≡ rows.old.cols }
    requires few { k < 2 ^ 30 }
    ensures { OnOk result (rows.new ≡ put_below rows.old (map (padded k) from.now.rows)) }
{
    for i in 0..from.rows() {
        put_row(rows, &padded_row(alloc, from.row(i), k)?)?;
    }
    Ok(())
}

/// Puts rows below the others, with k zeros behind the first entry of each.
fn put_spread(alloc: Global, rows: &mut Matrix, from: &Matrix, k: usize) -> Result<(), AllocError>
    requires some { 0 < length from.now.rows → 0 < from.now.cols }
    requires cols { 0 < length from.now.rows → from.now.cols + k ≡ rows.old.cols }
    requires few { k < 2 ^ 30 }
    ensures { OnOk result (rows.new ≡ put_below rows.old (map (spread k) from.now.rows)) }
{
    for i in 0..from.rows() {
        put_row(rows, &spread_row(alloc, from.row(i), k)?)?;
    }
    Ok(())
}

/// The same rows; without rows it states no column count.
pub(crate) fn same_rows(alloc: Global, matrix: &Matrix) -> Result<Matrix, AllocError>
    ensures rows { IfOk result (λ m. m.rows ≡ matrix.now.rows) }
    ensures cols { IfOk result (λ m. m.cols ≡ cols_over matrix.now.cols matrix.now.rows) }
{
    if matrix.rows() == 0 {
        Ok(Matrix::new(alloc, 0))
    } else {
        matrix.copy(alloc)
    }
}

/// The rows of a property of two objects, in the columns of their product. Without rows it states no column count.
pub(crate) fn both_rows(
    alloc: Global,
    a: &Object,
    b: &Object,
    p: PropId,
) -> Result<Matrix, AllocError>
    requires rows { IsOfRows p }
    requires first { IsKnown (p ∷ []) a.now.state }
    requires second { IsKnown (p ∷ []) b.now.state }
    ensures rows { IfOk result (λ m. m.rows ≡ both_rows p a.now.state b.now.state) }
    ensures cols { IfOk result (λ m. m.cols
        ≡ cols_over (product_cols a.now.state b.now.state) (both_rows p a.now.state b.now.state)) }
{
    let first = matrix_at(a, p);
    let second = matrix_at(b, p);
    let m = cols_at(a);
    let n = cols_at(b);
    let is_empty = first.rows() == 0 && second.rows() == 0;
    let mut rows = Matrix::new(alloc, if is_empty { 0 } else { m + n - 1 });
    put_padded(alloc, &mut rows, first, n - 1)?;
    put_spread(alloc, &mut rows, second, m - 1)?;
    Ok(rows)
}

/// The vertices in one column more, and the apex.
pub(crate) fn pyramid_points(alloc: Global, o: &Object) -> Result<Matrix, AllocError>
    requires { IsKnown (Vertices ∷ []) o.now.state }
    ensures rows { IfOk result (λ m. m.rows ≡ pyramid_points o.now.state) }
    ensures cols { IfOk result (λ m. m.cols ≡ suc (cols_at o.now.state)) }
{
    let n = cols_at(o);
    let mut rows = Matrix::new(alloc, n + 1);
    put_padded(alloc, &mut rows, matrix_at(o, PropId::Vertices), 1)?;
    put_row(&mut rows, &apex_row(alloc, n)?)?;
    Ok(rows)
}

/// The lineality in one column more. Without rows it states no column count.
pub(crate) fn pyramid_lines(alloc: Global, o: &Object) -> Result<Matrix, AllocError>
    requires { IsKnown (LinealitySpace ∷ []) o.now.state }
    ensures rows { IfOk result (λ m. m.rows ≡ pyramid_lines o.now.state) }
    ensures cols { IfOk result (λ m. m.cols
        ≡ cols_over (suc (cols_at o.now.state)) (pyramid_lines o.now.state)) }
{
    let lines = matrix_at(o, PropId::LinealitySpace);
    let n = cols_at(o);
    let mut rows = Matrix::new(alloc, if lines.rows() == 0 { 0 } else { n + 1 });
    put_padded(alloc, &mut rows, lines, 1)?;
    Ok(rows)
}
