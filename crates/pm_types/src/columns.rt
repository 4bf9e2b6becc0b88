// The columns and the rows that a value states.

ghost use Rattle.pm_types.specs.Forms.{agrees_with, cols_in, is_number, rows_in, stated_cols, states};
ghost use Rattle.pm_types.specs.Views.{view_of};
ghost use Rattle.std.specs.Prelude.{length, ◌≡◌};

use crate::value::Value;
use pm_props::{Columns, PropId};

/// The column count that a value states, 0 where it states none.
pub fn stated_cols(p: PropId, v: &Value) -> usize
    ensures { result ≡ stated_cols p (view_of v.now) }
{
    if p.row().columns != Columns::Rows {
        return 0;
    }
    column_count(v)
}

/// Whether a value's columns, or the ambient dimension that it states, do not differ from n.
pub fn agrees_with(n: usize, p: PropId, v: &Value) -> bool
    ensures { result ≡ agrees_with n p (view_of v.now) }
{
    if p.row().columns == Columns::Value {
        return states(n, v);
    }
    let stated = stated_cols(p, v);
    stated == 0 || stated == n
}

fn states(n: usize, v: &Value) -> bool
    ensures { result ≡ states n (view_of v.now) }
{
    match v {
        Value::Int(k) => is_number(*k, n),
        Value::Mat(_) => true,
        Value::Sets(_) => true,
        Value::Bool(_) => true,
        Value::Counts(_) => true,
        Value::Edges(_) => true,
        Value::Lattice(_) => true,
        Value::Number(_) => true,
    }
}

fn is_number(k: i64, n: usize) -> bool
    ensures { result ≡ is_number k n }
{
    k >= 0 && k as usize == n
}

/// The number of rows of a matrix; 0 of another value.
pub fn row_count(v: &Value) -> usize
    ensures { result ≡ length (rows_in (view_of v.now)) }
{
    match v {
        Value::Mat(matrix) => matrix.rows(),
        Value::Sets(_) => 0,
        Value::Int(_) => 0,
        Value::Bool(_) => 0,
        Value::Counts(_) => 0,
        Value::Edges(_) => 0,
        Value::Lattice(_) => 0,
        Value::Number(_) => 0,
    }
}

/// The number of columns of a matrix; 0 of another value.
pub fn column_count(v: &Value) -> usize
    ensures { result ≡ cols_in (view_of v.now) }
{
    match v {
        Value::Mat(matrix) => matrix.cols(),
        Value::Sets(_) => 0,
        Value::Int(_) => 0,
        Value::Bool(_) => 0,
        Value::Counts(_) => 0,
        Value::Edges(_) => 0,
        Value::Lattice(_) => 0,
        Value::Number(_) => 0,
    }
}
