// Values of properties as JSON.

ghost use Rattle.pm_files.specs.ValueJson.{cols_json, counts_json, edges_json, extended_json, fraction_json, is_one_row, json_of, lattice_json, matrix_json, objective_json, row_json, rows_json, set_json, sets_json, whole_json};
ghost use Rattle.pm_types.specs.Lists.{lists_of};
ghost use Rattle.pm_types.specs.Views.{extended_of, view_of};
ghost use Rattle.serde_json.specs.View.{view};
ghost use Rattle.std.specs.Prelude.{IfOk, map, ◌≡◌};

use pm_fraction::{Fraction, Matrix};
use pm_props::PropId;
use pm_types::{Number, Sets, Value};
use serde_json::{Value as Json, json};
use std::alloc::{AllocError, Global};

/// A fraction is its text.
fn fraction_json(alloc: Global, q: Fraction) -> Result<Json, AllocError>
    ensures { IfOk result (λ j. view j ≡ fraction_json q) }
{
    Ok(Json::String(q.text(alloc)?))
}

/// A row of a matrix.
fn row_json(alloc: Global, row: &[Fraction]) -> Result<Json, AllocError>
    ensures { IfOk result (λ j. view j ≡ row_json row.now) }
{
    let mut entries = Vec::new(alloc);
    for q in row {
        entries.push(fraction_json(alloc, *q)?)?;
    }
    Ok(Json::Array(entries))
}

/// `{"cols":n}`.
fn cols_json(alloc: Global, n: usize) -> Result<Json, AllocError>
    ensures { IfOk result (λ j. view j ≡ cols_json n) }
{
    json!(in alloc; {"cols": n})
}

/// The rows of a matrix.
fn matrix_rows(alloc: Global, m: &Matrix) -> Result<Vec<Json>, AllocError>
    ensures { IfOk result (λ rows. map view rows.items ≡ map row_json m.now.rows) }
{
    let mut rows = Vec::new(alloc);
    for i in 0..m.rows() {
        rows.push(row_json(alloc, m.row(i))?)?;
    }
    Ok(rows)
}

/// A matrix, with its column count only where it has no row.
fn matrix_json(alloc: Global, m: &Matrix) -> Result<Json, AllocError>
    ensures { IfOk result (λ j. view j ≡ matrix_json m.now.cols m.now.rows) }
{
    let mut rows = matrix_rows(alloc, m)?;
    if m.rows() == 0 && m.cols() != 0 {
        rows.push(cols_json(alloc, m.cols())?)?;
    }
    Ok(Json::Array(rows))
}

/// An objective or heights, which are one row.
pub(crate) fn objective_json(alloc: Global, m: &Matrix) -> Result<Json, AllocError>
    ensures { IfOk result (λ j. view j ≡ objective_json m.now.rows) }
{
    if m.rows() == 0 {
        return Ok(Json::Array(Vec::new(alloc)));
    }
    row_json(alloc, m.row(0))
}

/// Whether the values of a property are one row each: an objective, or heights.
pub(crate) fn is_one_row(p: PropId) -> bool
    ensures { result ≡ is_one_row p }
{
    p == PropId::LinearObjective || p == PropId::SiteHeights
}

/// A value of a property whose values are matrices.
fn rows_json(alloc: Global, p: PropId, m: &Matrix) -> Result<Json, AllocError>
    ensures { IfOk result (λ j. view j ≡ rows_json p m.now.cols m.now.rows) }
{
    if is_one_row(p) {
        objective_json(alloc, m)
    } else {
        matrix_json(alloc, m)
    }
}

/// A set of indices.
pub(crate) fn set_json(alloc: Global, set: &[u32]) -> Result<Json, AllocError>
    ensures { IfOk result (λ j. view j ≡ set_json set.now) }
{
    let mut indices = Vec::new(alloc);
    for j in set {
        indices.push(Json::from(*j))?;
    }
    Ok(Json::Array(indices))
}

/// Each set of a list.
fn each_set(alloc: Global, rows: &[Vec<u32>]) -> Result<Vec<Json>, AllocError>
    ensures { IfOk result (λ sets. map view sets.items ≡ map set_json (map (λ set. set.items) rows.now)) }
{
    let mut sets = Vec::new(alloc);
    for row in rows {
        sets.push(set_json(alloc, row)?)?;
    }
    Ok(sets)
}

/// Sets, and behind them their column count.
fn sets_json(alloc: Global, sets: &Sets) -> Result<Json, AllocError>
    ensures { IfOk result (λ j. view j ≡ sets_json sets.now.rows sets.now.cols) }
{
    let mut rows = each_set(alloc, sets.rows())?;
    rows.push(cols_json(alloc, sets.cols() as usize)?)?;
    Ok(Json::Array(rows))
}

/// Sets without a column count.
pub(crate) fn edges_json(alloc: Global, rows: &[Vec<u32>]) -> Result<Json, AllocError>
    ensures { IfOk result (λ j. view j ≡ edges_json (map (λ set. set.items) rows.now)) }
{
    Ok(Json::Array(each_set(alloc, rows)?))
}

/// The faces of each rank.
fn lattice_json(alloc: Global, ranks: &[Vec<Vec<u32>>]) -> Result<Json, AllocError>
    ensures { IfOk result (λ j. view j ≡ lattice_json (map lists_of ranks.now)) }
{
    let mut items = Vec::new(alloc);
    for faces in ranks {
        items.push(edges_json(alloc, faces)?)?;
    }
    Ok(Json::Array(items))
}

/// A whole number.
fn whole_json(k: i64) -> Json
    ensures { view result ≡ whole_json k }
{
    Json::from(k)
}

/// A list of counts.
fn counts_json(alloc: Global, counts: &[i64]) -> Result<Json, AllocError>
    ensures { IfOk result (λ j. view j ≡ counts_json counts.now) }
{
    let mut numbers = Vec::new(alloc);
    for k in counts {
        numbers.push(whole_json(*k))?;
    }
    Ok(Json::Array(numbers))
}

/// A fraction or an infinity.
fn extended_json(alloc: Global, number: &Number) -> Result<Json, AllocError>
    ensures { IfOk result (λ j. view j ≡ extended_json (extended_of number.now)) }
{
    match number {
        Number::Finite(q) => fraction_json(alloc, *q),
        Number::Plus => Json::try_from_str(alloc, "inf"),
        Number::Minus => Json::try_from_str(alloc, "-inf"),
    }
}

/// The JSON of a value of a property.
pub fn value_json(alloc: Global, p: PropId, v: &Value) -> Result<Json, AllocError>
    ensures { IfOk result (λ j. view j ≡ json_of p (view_of v.now)) }
{
    match v {
        Value::Mat(matrix) => rows_json(alloc, p, matrix),
        Value::Sets(sets) => sets_json(alloc, sets),
        Value::Int(k) => Ok(whole_json(*k)),
        Value::Bool(b) => Ok(Json::Bool(*b)),
        Value::Counts(counts) => counts_json(alloc, counts.as_slice()),
        Value::Edges(sets) => edges_json(alloc, sets.rows()),
        Value::Lattice(lattice) => lattice_json(alloc, lattice.ranks()),
        Value::Number(number) => extended_json(alloc, number),
    }
}
