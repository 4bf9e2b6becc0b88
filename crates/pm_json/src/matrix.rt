// Matrices from JSON.

ghost use Rattle.pm_json.specs.Readings.{and_then, cols_member, entries_from, first_row_of, later_row_from, later_rows_from, matrix_from, matrix_of, matrix_reading, matrix_with, one_row_of, only_cols, rows_from, whole_number_of, with_cols, with_front};
ghost use Rattle.pm_json.specs.declared.fail.ValueFail.TheVariants.{Memory};
ghost use Rattle.pm_types.specs.Forms.{is_number};
ghost use Rattle.pm_types.specs.Values.{matrix};
ghost use Rattle.pm_types.specs.Views.{view_of};
ghost use Rattle.serde_json.specs.View.{items_view, view};
ghost use Rattle.std.specs.Prelude.{IfErr, IfOk, OnErr, OnOk, Some, [], length, ◌++◌, ◌∷◌, ◌≡◌, ◌≢◌, ◌≤◌};

use crate::fail::ValueFail;
use crate::number::{read_entry, read_items, read_whole_number};
use crate::sets::read_cols_member;
use pm_fraction::{Fraction, Matrix};
use pm_limits::{MOST_COLUMNS, MOST_ROWS, MOST_SITE_COLUMNS};
use pm_props::PropId;
use pm_types::Value as PropertyValue;
use serde_json::Value;
use std::alloc::Global;

/// The entries of a row, at most so many.
fn read_entries(alloc: Global, most: usize, items: &[Value]) -> Result<Vec<Fraction>, ValueFail>
    ensures ok { IfOk result (λ row. entries_from most 0 (items_view items.now) ≡ Ok row.items) }
    ensures fault { IfErr result (λ e. e ≢ ValueFail.Memory
        → entries_from most 0 (items_view items.now) ≡ Err e) }
{
    let mut row = Vec::with_capacity(alloc, items.len().min(most))?;
    for item in items {
        let entry = read_entry(item)?;
        if row.len() >= most {
            return Err(ValueFail::Limit);
        }
        row.push(entry)?;
    }
    Ok(row)
}

/// A first row, which has to have from `least` to `most` entries.
fn read_first_row(
    alloc: Global,
    least: usize,
    most: usize,
    items: &[Value],
) -> Result<Vec<Fraction>, ValueFail>
    ensures ok { IfOk result (λ row. first_row_of least most (items_view items.now) ≡ Ok row.items) }
    ensures fault { IfErr result (λ e. e ≢ ValueFail.Memory
        → first_row_of least most (items_view items.now) ≡ Err e) }
{
    let row = read_entries(alloc, most, items)?;
    if row.len() < least {
        return Err(ValueFail::Limit);
    }
    Ok(row)
}

/// A later row, of so many entries.
fn read_later_row(alloc: Global, cols: usize, items: &[Value]) -> Result<Vec<Fraction>, ValueFail>
    ensures ok { IfOk result (λ row. later_row_from cols 0 (items_view items.now) ≡ Ok row.items) }
    ensures len { IfOk result (λ row. length row.items ≡ cols) }
    ensures fault { IfErr result (λ e. e ≢ ValueFail.Memory
        → later_row_from cols 0 (items_view items.now) ≡ Err e) }
{
    let mut row = Vec::with_capacity(alloc, items.len().min(cols))?;
    for item in items {
        if row.len() >= cols {
            return Err(ValueFail::Shape);
        }
        let entry = read_entry(item)?;
        row.push(entry)?;
    }
    if row.len() == cols {
        Ok(row)
    } else {
        Err(ValueFail::Shape)
    }
}

/// Puts a row of the matrix's columns below its rows.
fn push_row(matrix: &mut Matrix, row: &[Fraction]) -> Result<(), ValueFail>
    requires { length row.now ≡ matrix.old.cols }
    ensures ok { OnOk result (matrix.new ≡ record matrix.old { rows = matrix.old.rows ++ row.now ∷ [] }) }
    ensures fault { IfErr result (λ e. e ≡ Memory) }
    ensures unchanged { OnErr result (matrix.new ≡ matrix.old) }
{
    match matrix.push_row(row) {
        Ok(()) => Ok(()),
        Err(_) => Err(ValueFail::Memory),
    }
}

/// Reads the rows behind those of the matrix.
fn read_later_rows(alloc: Global, matrix: &mut Matrix, items: &[Value]) -> Result<(), ValueFail>
    ensures cols { matrix.new.cols ≡ matrix.old.cols }
    ensures ok { OnOk result
        (with_front matrix.old.rows (later_rows_from matrix.old.cols (length matrix.old.rows)
        (items_view items.now)) ≡ Ok matrix.new.rows) }
    ensures fault { IfErr result (λ e. e ≢ ValueFail.Memory
        → with_front matrix.old.rows (later_rows_from matrix.old.cols (length matrix.old.rows)
        (items_view items.now)) ≡ Err e) }
{
    for item in items {
        let entries = read_items(item)?;
        if matrix.rows() >= MOST_ROWS {
            return Err(ValueFail::Limit);
        }
        let row = read_later_row(alloc, matrix.cols(), entries)?;
        push_row(matrix, &row)?;
    }
    Ok(())
}

/// The rows that elements of an array are, of as many entries.
fn read_rows(alloc: Global, least: usize, most: usize, items: &[Value]) -> Result<Matrix, ValueFail>
    ensures ok { IfOk result (λ m. rows_from least most (items_view items.now) ≡ Ok m) }
    ensures fault { IfErr result (λ e. e ≢ ValueFail.Memory
        → rows_from least most (items_view items.now) ≡ Err e) }
{
    let Some((first, others)) = items.split_first() else {
        return Ok(Matrix::new(alloc, 0));
    };
    let entries = read_items(first)?;
    let row = read_first_row(alloc, least, most, entries)?;
    let mut matrix = Matrix::new(alloc, row.len());
    push_row(&mut matrix, &row)?;
    read_later_rows(alloc, &mut matrix, others)?;
    Ok(matrix)
}

/// Whether a whole number is this count.
fn is_number(z: i128, n: usize) -> bool
    ensures { result ≡ is_number z n }
{
    0 <= z && z as u128 == n as u128
}

/// The matrix without rows that has so many columns.
fn read_only_cols(alloc: Global, least: usize, most: usize, z: i128) -> Result<Matrix, ValueFail>
    requires { least ≤ 1 }
    ensures { result ≡ only_cols least most z }
{
    if least as i128 <= z && z <= most as i128 {
        Ok(Matrix::new(alloc, z as usize))
    } else {
        Err(ValueFail::Limit)
    }
}

/// The matrix with this column count stated behind its rows.
fn with_cols(
    alloc: Global,
    least: usize,
    most: usize,
    matrix: Matrix,
    z: i128,
) -> Result<Matrix, ValueFail>
    requires { least ≤ 1 }
    ensures { result ≡ with_cols least most matrix z }
{
    if matrix.rows() == 0 {
        return read_only_cols(alloc, least, most, z);
    }
    if is_number(z, matrix.cols()) {
        Ok(matrix)
    } else {
        Err(ValueFail::Shape)
    }
}

/// The column count that a last object states.
fn read_stated_cols(v: &Value) -> Result<i128, ValueFail>
    ensures { result ≡ and_then (cols_member (view v.now)) whole_number_of }
{
    let n = read_cols_member(v)?;
    read_whole_number(n)
}

/// The matrix of rows and of a last object that states their column count.
fn read_stated(
    alloc: Global,
    least: usize,
    most: usize,
    rows: &[Value],
    stated: &Value,
) -> Result<Matrix, ValueFail>
    requires { least ≤ 1 }
    ensures ok { IfOk result (λ m. matrix_with least most (items_view rows.now) (Some (view stated.now))
        ≡ Ok m) }
    ensures fault { IfErr result (λ e. e ≢ ValueFail.Memory
        → matrix_with least most (items_view rows.now) (Some (view stated.now)) ≡ Err e) }
{
    let matrix = read_rows(alloc, least, most, rows)?;
    let z = read_stated_cols(stated)?;
    with_cols(alloc, least, most, matrix, z)
}

/// The matrix that elements of an array are.
fn read_elements(
    alloc: Global,
    least: usize,
    most: usize,
    items: &[Value],
) -> Result<Matrix, ValueFail>
    requires { least ≤ 1 }
    ensures ok { IfOk result (λ m. matrix_from least most (items_view items.now) ≡ Ok m) }
    ensures fault { IfErr result (λ e. e ≢ ValueFail.Memory
        → matrix_from least most (items_view items.now) ≡ Err e) }
{
    let Some((last, rows)) = items.split_last() else {
        return read_rows(alloc, least, most, items);
    };
    if last.is_object() {
        read_stated(alloc, least, most, rows, last)
    } else {
        read_rows(alloc, least, most, items)
    }
}

/// The matrix that a JSON value is, with rows of as many entries.
fn read_matrix_of(
    alloc: Global,
    least: usize,
    most: usize,
    v: &Value,
) -> Result<PropertyValue, ValueFail>
    requires { least ≤ 1 }
    ensures ok { IfOk result (λ value. matrix_of least most (view v.now) ≡ Ok (view_of value)) }
    ensures fault { IfErr result (λ e. e ≢ ValueFail.Memory → matrix_of least most (view v.now) ≡ Err e) }
{
    let items = read_items(v)?;
    let matrix = read_elements(alloc, least, most, items)?;
    Ok(PropertyValue::Mat(matrix))
}

/// The one row that a JSON value is.
fn read_one_row(
    alloc: Global,
    least: usize,
    most: usize,
    v: &Value,
) -> Result<PropertyValue, ValueFail>
    ensures ok { IfOk result (λ value. one_row_of least most (view v.now) ≡ Ok (view_of value)) }
    ensures fault { IfErr result (λ e. e ≢ ValueFail.Memory → one_row_of least most (view v.now) ≡ Err e) }
{
    let items = read_items(v)?;
    let row = read_first_row(alloc, least, most, items)?;
    let mut matrix = Matrix::new(alloc, row.len());
    push_row(&mut matrix, &row)?;
    Ok(PropertyValue::Mat(matrix))
}

/// The matrix that a JSON value is, for a property whose values are matrices.
pub fn read_matrix(alloc: Global, p: PropId, v: &Value) -> Result<PropertyValue, ValueFail>
    ensures ok { IfOk result (λ value. matrix_reading p (view v.now) ≡ Ok (view_of value)) }
    ensures fault { IfErr result (λ e. e ≢ ValueFail.Memory → matrix_reading p (view v.now) ≡ Err e) }
{
    match p {
        PropId::LinearObjective => read_one_row(alloc, 1, MOST_COLUMNS, v),
        PropId::SiteHeights => read_one_row(alloc, 0, MOST_ROWS, v),
        PropId::F2Vector => read_matrix_of(alloc, 0, MOST_COLUMNS, v),
        PropId::Sites => read_matrix_of(alloc, 1, MOST_SITE_COLUMNS, v),
        _ => read_matrix_of(alloc, 1, MOST_COLUMNS, v),
    }
}
