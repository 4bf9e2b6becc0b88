// The tests that the rows of a value pass.

ghost use Rattle.pm_types.specs.Forms.{AreFractions, are_rows, first_is_above, first_is_below, first_is_nought, is_above_nought, is_below_nought, is_nought, is_row, is_zero_row, passes};
ghost use Rattle.pm_types.specs.Values.{extended};
ghost use Rattle.pm_types.specs.Views.{extended_of, view_of};
ghost use Rattle.std.specs.List.{list_all};
ghost use Rattle.std.specs.Prelude.{◌≡◌};

use crate::number::Number;
use crate::value::Value;
use pm_fraction::{Fraction, Matrix};
use pm_props::{ObjectType, PropId, RowTest};

/// Whether each row of a matrix passes the tests of rows of its property.
pub fn are_rows(of: ObjectType, p: PropId, v: &Value) -> bool
    ensures { result ≡ are_rows of p (view_of v.now) }
{
    match v {
        Value::Mat(matrix) => all_are_rows(of, p, matrix),
        Value::Sets(_) => true,
        Value::Int(_) => true,
        Value::Bool(_) => true,
        Value::Counts(_) => true,
        Value::Edges(_) => true,
        Value::Lattice(_) => true,
        Value::Number(_) => true,
    }
}

fn all_are_rows(of: ObjectType, p: PropId, matrix: &Matrix) -> bool
    ensures { result ≡ list_all (is_row of p) matrix.now.rows }
{
    for i in 0..matrix.rows() {
        if !is_row(of, p, matrix.row(i)) {
            return false;
        }
    }
    true
}

fn is_row(of: ObjectType, p: PropId, row: &[Fraction]) -> bool
    ensures { result ≡ is_row of p row.now }
{
    passes(of, p.row().test, row)
}

fn passes(of: ObjectType, test: RowTest, row: &[Fraction]) -> bool
    ensures { result ≡ passes of test row.now }
{
    match (of, test) {
        (ObjectType::Polytope, RowTest::Point) => !first_is_below(row),
        (ObjectType::Polytope, RowTest::Line) => first_is_nought(row),
        (ObjectType::Polytope, RowTest::Ray) => !first_is_below(row) && !is_zero_row(row),
        (_, RowTest::Ray | RowTest::NotZero) => !is_zero_row(row),
        (_, RowTest::Site) => first_is_above(row),
        _ => true,
    }
}

fn is_zero_row(row: &[Fraction]) -> bool
    ensures { result ≡ is_zero_row row.now }
{
    for q in row {
        if !is_nought(q.num()) {
            return false;
        }
    }
    true
}

fn is_nought(k: i128) -> bool
    ensures { result ≡ is_nought k }
{
    k == 0
}

fn is_below_nought(k: i128) -> bool
    ensures { result ≡ is_below_nought k }
{
    k < 0
}

fn first_is_nought(row: &[Fraction]) -> bool
    ensures { result ≡ first_is_nought row.now }
{
    match row.first() {
        Some(q) => is_nought(q.num()),
        None => true,
    }
}

/// Whether the first entry is negative.
pub fn first_is_below(row: &[Fraction]) -> bool
    ensures { result ≡ first_is_below row.now }
{
    match row.first() {
        Some(q) => is_below_nought(q.num()),
        None => false,
    }
}

fn is_above_nought(k: i128) -> bool
    ensures { result ≡ is_above_nought k }
{
    k > 0
}

fn first_is_above(row: &[Fraction]) -> bool
    ensures { result ≡ first_is_above row.now }
{
    match row.first() {
        Some(q) => is_above_nought(q.num()),
        None => false,
    }
}

/// The entries of a value are fractions in lowest terms, within the range.
pub fn reads_entries(v: &Value)
    ensures { AreFractions (view_of v.now) }
{
    match v {
        Value::Mat(matrix) => {
            let _rows = matrix.rows();
        }
        Value::Number(number) => reads_number(*number),
        Value::Sets(_)
        | Value::Int(_)
        | Value::Bool(_)
        | Value::Counts(_)
        | Value::Edges(_)
        | Value::Lattice(_) => (),
    }
}

// The fraction of a finite number is in lowest terms, within the range.
fn reads_number(number: Number)
    ensures { AreFractions (extended (extended_of number)) }
{
    if let Number::Finite(q) = number {
        let _num = q.num();
        let _den = q.den();
    }
}
