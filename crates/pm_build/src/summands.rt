// The rows of a Minkowski sum.

ghost use Rattle.pm_vector.specs.Rows.{HasCols, entry};
ghost use Rattle.pm_build.specs.Conditions.{sum_reads};
ghost use Rattle.pm_build.specs.Objects.{put_below};
ghost use Rattle.pm_build.specs.Points.{far, is_point, is_positive, pairs, pairs_with, points};
ghost use Rattle.pm_build.specs.Sums.{AreSumPoints, AreSumsBelow, IsWideAmong, IsWideSumOf, sum_lines};
ghost use Rattle.pm_fraction.specs.FractionRows.{ArePrimitiveRowsOf};
ghost use Rattle.pm_object.specs.Known.{IsKnown, cols_at};
ghost use Rattle.pm_types.specs.Parts.{cols_over};
ghost use Rattle.pm_types.specs.Forms.{HasPrimitiveRow};
ghost use Rattle.std.specs.Prelude.{All, IfErr, IfOk, OnOk, length, pos, ◌+◌, ◌<◌, ◌<ℤ◌, ◌≡◌, ◌≤◌};
ghost use Rattle.pm_limits.specs.Limits.{most_columns, most_rows};

use crate::fails::SumFail;
use crate::rows::{put_row, stated};
use crate::sums::sum_row;
use pm_fraction::{Fraction, Matrix, RowsFail};
use pm_object::{Object, cols_at, matrix_at};
use pm_types::PropId;
use pm_vector::Ints;
use std::alloc::{AllocError, Global};

fn is_positive(k: i128) -> bool
    ensures { result ≡ is_positive k }
{
    k > 0
}

fn is_point(row: &[Fraction]) -> bool
    ensures { result ≡ is_point row.now }
{
    match row.first() {
        Some(q) => is_positive(q.num()),
        None => false,
    }
}

/// How many rows stand for points.
pub(crate) fn count_points(matrix: &Matrix) -> usize
    ensures value { result ≡ length (points matrix.now.rows) }
    ensures others { length (far matrix.now.rows) + result ≡ length matrix.now.rows }
{
    let mut count = 0;
    for i in 0..matrix.rows() {
        if is_point(matrix.row(i)) {
            count += 1;
        }
    }
    count
}

/// The rows that stand for points.
fn point_rows(alloc: Global, from: &Matrix) -> Result<Matrix, AllocError>
    ensures { IfOk result (λ m. m ≡ record { cols = from.now.cols; rows = points from.now.rows }) }
{
    let mut rows = Matrix::new(alloc, from.cols());
    for i in 0..from.rows() {
        if is_point(from.row(i)) {
            put_row(&mut rows, from.row(i))?;
        }
    }
    Ok(rows)
}

/// The primitive rows of the points.
fn points(alloc: Global, matrix: &Matrix) -> Result<Vec<Ints>, AllocError>
    requires few { length matrix.now.rows ≤ most_rows }
    requires stay { All HasPrimitiveRow matrix.now.rows }
    ensures { IfOk result (λ v. ArePrimitiveRowsOf (points matrix.now.rows) v.items) }
{
    let rows = point_rows(alloc, matrix)?;
    match rows.to_primitive_rows(alloc) {
        Ok(points) => Ok(points),
        Err(RowsFail::Memory) => Err(AllocError),
        Err(RowsFail::Wide { .. }) => unreachable!(),
    }
}

/// Puts the sums of a point and each of others below the rows.
fn put_sums_with(alloc: Global, rows: &mut Matrix, v: &Ints, others: &[Ints]) -> Result<(), SumFail>
    requires cols { length v.now ≡ rows.old.cols }
    requires other_cols { HasCols rows.old.cols others.now }
    requires some { 0 < rows.old.cols }
    requires few { rows.old.cols ≤ most_columns }
    requires first { pos 0 <ℤ entry v.now 0 }
    requires second { All (λ w. pos 0 <ℤ entry w 0) others.now }
    ensures value { OnOk result (AreSumsBelow rows.old (pairs_with v.now others.now) rows.new) }
    ensures wide { IfErr result (IsWideAmong (pairs_with v.now others.now)) }
{
    for w in others {
        put_row(rows, &sum_row(alloc, v, w)?)?;
    }
    Ok(())
}

/// Puts the sums of each point and each of others below the rows.
fn put_sums(
    alloc: Global,
    rows: &mut Matrix,
    points: &[Ints],
    others: &[Ints],
) -> Result<(), SumFail>
    requires cols { HasCols rows.old.cols points.now }
    requires other_cols { HasCols rows.old.cols others.now }
    requires some { 0 < rows.old.cols }
    requires few { rows.old.cols ≤ most_columns }
    requires first { All (λ v. pos 0 <ℤ entry v 0) points.now }
    requires second { All (λ w. pos 0 <ℤ entry w 0) others.now }
    ensures value { OnOk result (AreSumsBelow rows.old (pairs points.now others.now) rows.new) }
    ensures wide { IfErr result (IsWideAmong (pairs points.now others.now)) }
{
    for v in points {
        put_sums_with(alloc, rows, v, others)?;
    }
    Ok(())
}

/// Puts the rows that stand for no points below the others.
fn put_far(rows: &mut Matrix, from: &Matrix) -> Result<(), AllocError>
    requires { 0 < length from.now.rows → from.now.cols ≡ rows.old.cols }
    ensures { OnOk result (rows.new ≡ put_below rows.old (far from.now.rows)) }
{
    for i in 0..from.rows() {
        if !is_point(from.row(i)) {
            put_row(rows, from.row(i))?;
        }
    }
    Ok(())
}

/// Puts the rows below the others.
fn put_rows(rows: &mut Matrix, from: &Matrix) -> Result<(), AllocError>
    requires { 0 < length from.now.rows → from.now.cols ≡ rows.old.cols }
    ensures { OnOk result (rows.new ≡ put_below rows.old from.now.rows) }
{
    for i in 0..from.rows() {
        put_row(rows, from.row(i))?;
    }
    Ok(())
}

/// The points of the sum. Without rows it states no column count.
pub(crate) fn sum_points(alloc: Global, a: &Object, b: &Object) -> Result<Matrix, SumFail>
    requires first { IsKnown sum_reads a.now.state }
    requires second { IsKnown sum_reads b.now.state }
    requires columns { cols_at b.now.state ≡ cols_at a.now.state }
    ensures rows { IfOk result (λ m. AreSumPoints a.now.state b.now.state m.rows) }
    ensures cols { IfOk result (λ m. m.cols ≡ cols_over (cols_at a.now.state) m.rows) }
    ensures wide { IfErr result (IsWideSumOf a.now.state b.now.state) }
{
    let first = matrix_at(a, PropId::Vertices);
    let second = matrix_at(b, PropId::Vertices);
    let mut rows = Matrix::new(alloc, cols_at(a));
    put_sums(
        alloc,
        &mut rows,
        &points(alloc, first)?,
        &points(alloc, second)?,
    )?;
    put_far(&mut rows, first)?;
    put_far(&mut rows, second)?;
    Ok(stated(alloc, rows))
}

/// The lines of the sum. Without rows it states no column count.
pub(crate) fn sum_lines(alloc: Global, a: &Object, b: &Object) -> Result<Matrix, AllocError>
    requires first { IsKnown sum_reads a.now.state }
    requires second { IsKnown sum_reads b.now.state }
    requires columns { cols_at b.now.state ≡ cols_at a.now.state }
    ensures rows { IfOk result (λ m. m.rows ≡ sum_lines a.now.state b.now.state) }
    ensures cols { IfOk result (λ m. m.cols
        ≡ cols_over (cols_at a.now.state) (sum_lines a.now.state b.now.state)) }
{
    let mut rows = Matrix::new(alloc, cols_at(a));
    put_rows(&mut rows, matrix_at(a, PropId::LinealitySpace))?;
    put_rows(&mut rows, matrix_at(b, PropId::LinealitySpace))?;
    Ok(stated(alloc, rows))
}
