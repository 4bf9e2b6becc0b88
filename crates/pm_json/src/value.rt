// Values of properties from JSON.

ghost use Rattle.pm_json.specs.Grammar.{IsJsonOf};
ghost use Rattle.pm_types.specs.Values.{PropertyValue as ValueSeen};
ghost use Rattle.pm_json.specs.Readings.{extended_value_of, is_text, number_value_of, reading, truth_of, whole_of};
ghost use Rattle.pm_types.specs.Forms.{is_dimension, is_formed};
ghost use Rattle.pm_props.specs.Properties.{value_kind};
ghost use Rattle.pm_types.specs.Views.{extended_of, view_of};
ghost use Rattle.serde_json.specs.Find.{as_str};
ghost use Rattle.serde_json.specs.View.{view};
ghost use Rattle.std.specs.Prelude.{IfErr, IfOk, IsTrue, ◌≡◌, ◌≢◌, ◌↔◌};

use crate::counts::read_counts;
use crate::edges::read_edges;
use crate::fail::ValueFail;
use crate::lattice::read_lattice;
use crate::matrix::read_matrix;
use crate::number::read_entry;
use crate::sets::read_sets;
use pm_limits::MOST_COLUMNS;
use pm_props::{Columns, PropId, ValueKind};
use pm_types::{Number, Value as PropertyValue};
use serde_json::Value;
use std::alloc::Global;

/// Whether this is a column count: from 1 to 33.
fn is_dimension(k: i64) -> bool
    ensures { result ≡ is_dimension k }
{
    1 <= k && k <= MOST_COLUMNS as i64
}

/// A whole number of 64 bits.
fn read_whole(p: PropId, v: &Value) -> Result<PropertyValue, ValueFail>
    requires { value_kind p ≡ ValueKind.Int }
    ensures ok { IfOk result (λ value. whole_of p (view v.now) ≡ Ok (view_of value)) }
    ensures formed { IfOk result (λ value. IsTrue (is_formed p (view_of value))) }
    ensures fault { IfErr result (λ e. whole_of p (view v.now) ≡ Err e) }
{
    let Some(number) = v.as_number() else {
        return Err(ValueFail::Shape);
    };
    let Some(k) = number.as_i64() else {
        return Err(ValueFail::Number);
    };
    if p.row().columns == Columns::Value && !is_dimension(k) {
        return Err(ValueFail::Limit);
    }
    Ok(PropertyValue::Int(k))
}

/// A truth value.
fn read_truth(v: &Value) -> Result<PropertyValue, ValueFail>
    ensures ok { IfOk result (λ value. truth_of (view v.now) ≡ Ok (view_of value)) }
    ensures fault { IfErr result (λ e. truth_of (view v.now) ≡ Err e) }
{
    match v.as_bool() {
        Some(b) => Ok(PropertyValue::Bool(b)),
        None => Err(ValueFail::Shape),
    }
}

/// Whether a JSON value is this text.
fn is_text(v: &Value, text: &str) -> bool
    ensures { result ≡ is_text text.now (as_str (view v.now)) }
{
    match v.as_str() {
        Some(found) => found == text,
        None => false,
    }
}

/// A fraction, or the text of an infinity.
fn read_extended(v: &Value) -> Result<Number, ValueFail>
    ensures ok { IfOk result (λ x. number_value_of (view v.now) ≡ Ok (extended_of x)) }
    ensures fault { IfErr result (λ e. number_value_of (view v.now) ≡ Err e) }
{
    if is_text(v, "inf") {
        return Ok(Number::Plus);
    }
    if is_text(v, "-inf") {
        return Ok(Number::Minus);
    }
    let q = read_entry(v)?;
    Ok(Number::Finite(q))
}

/// A number, for a property whose values are such.
fn read_number_value(p: PropId, v: &Value) -> Result<PropertyValue, ValueFail>
    requires { value_kind p ≡ ValueKind.Number }
    ensures ok { IfOk result (λ value. extended_value_of (view v.now) ≡ Ok (view_of value)) }
    ensures formed { IfOk result (λ value. IsTrue (is_formed p (view_of value))) }
    ensures fault { IfErr result (λ e. extended_value_of (view v.now) ≡ Err e) }
{
    let number = read_extended(v)?;
    Ok(PropertyValue::Number(number))
}

/// The value of a property that a JSON value is; where it is none, the first fault in reading order.
pub fn read_value(alloc: Global, p: PropId, v: &Value) -> Result<PropertyValue, ValueFail>
    ensures text { IfOk result (λ value. IsJsonOf p (view v.now) (view_of value)) }
    ensures no_text { IfErr result (λ e. e ≢ ValueFail.Memory → (value : ValueSeen)
        → ¬ (IsJsonOf p (view v.now) value)) }
    ensures ok { IfOk result (λ value. reading p (view v.now) ≡ Ok (view_of value)) }
    ensures formed { IfOk result (λ value. IsTrue (is_formed p (view_of value))) }
    ensures fault { IfErr result (λ e. e ≢ ValueFail.Memory → reading p (view v.now) ≡ Err e) }
{
    let kind = p.row().kind;
    match kind {
        ValueKind::Mat => read_matrix(alloc, p, v),
        ValueKind::Sets => read_sets(alloc, v),
        ValueKind::Int => read_whole(p, v),
        ValueKind::Bool => read_truth(v),
        ValueKind::Counts => read_counts(alloc, p, v),
        ValueKind::Edges => read_edges(alloc, p, v),
        ValueKind::Lattice => read_lattice(alloc, p, v),
        ValueKind::Number => read_number_value(p, v),
    }
}
