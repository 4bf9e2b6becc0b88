// Lists of counts from JSON.

ghost use Rattle.pm_json.specs.Readings.{count_of_number, count_of_text, counts_from, counts_of, whole_count_of};
ghost use Rattle.pm_props.specs.Properties.{value_kind};
ghost use Rattle.pm_props.specs.declared.property.ValueKind.TheVariants as ValueKind;
ghost use Rattle.pm_types.specs.Forms.{has_64_bits, is_counts_form, is_formed};
ghost use Rattle.pm_types.specs.Views.{view_of};
ghost use Rattle.serde_json.specs.View.{items_view, view};
ghost use Rattle.std.specs.Prelude.{IfErr, IfOk, IsTrue, slice_index, ◌==◌, ◌≡◌, ◌≢◌};

use crate::fail::ValueFail;
use crate::number::read_items;
use pm_limits::MOST_ROWS;
use pm_props::PropId;
use pm_types::{Counts, Value as PropertyValue};
use serde_json::Value;
use std::alloc::Global;

/// Whether a text begins with a plus.
fn begins_with_plus(text: &str) -> bool
    ensures { result ≡ (slice_index text.now 0 == 43) }
{
    !text.is_empty() && text.as_bytes()[0] == b'+'
}

/// The whole number of 64 bits that a text writes.
fn read_count_text(text: &str) -> Result<i64, ValueFail>
    ensures value { result ≡ count_of_text text.now }
    ensures bits { IfOk result (λ k. IsTrue (has_64_bits k)) }
{
    if begins_with_plus(text) {
        return Err(ValueFail::Number);
    }
    match text.parse::<i64>() {
        Ok(k) => Ok(k),
        Err(_) => Err(ValueFail::Number),
    }
}

/// The whole number of 64 bits that a JSON number is.
fn read_count_number(v: &Value) -> Result<i64, ValueFail>
    ensures value { result ≡ count_of_number (view v.now) }
    ensures bits { IfOk result (λ k. IsTrue (has_64_bits k)) }
{
    let Some(number) = v.as_number() else {
        return Err(ValueFail::Shape);
    };
    match number.as_i64() {
        Some(k) => Ok(k),
        None => Err(ValueFail::Number),
    }
}

/// A whole number of 64 bits, or a text that writes one.
fn read_whole_count(v: &Value) -> Result<i64, ValueFail>
    ensures value { result ≡ whole_count_of (view v.now) }
    ensures bits { IfOk result (λ k. IsTrue (has_64_bits k)) }
{
    match v.as_str() {
        Some(text) => read_count_text(text),
        None => read_count_number(v),
    }
}

/// The numbers of a list.
fn read_count_list(alloc: Global, items: &[Value]) -> Result<Vec<i64>, ValueFail>
    ensures ok { IfOk result (λ ks. counts_from 0 (items_view items.now) ≡ Ok ks.items) }
    ensures form { IfOk result (λ ks. IsTrue (is_counts_form ks.items)) }
    ensures fault { IfErr result (λ e. e ≢ ValueFail.Memory
        → counts_from 0 (items_view items.now) ≡ Err e) }
{
    let mut counts = Vec::new(alloc);
    for item in items {
        let k = read_whole_count(item)?;
        if counts.len() >= MOST_ROWS {
            return Err(ValueFail::Limit);
        }
        counts.push(k)?;
    }
    Ok(counts)
}

/// The list of counts that a JSON value is, for a property whose values are such lists.
pub fn read_counts(alloc: Global, p: PropId, v: &Value) -> Result<PropertyValue, ValueFail>
    requires { value_kind p ≡ ValueKind.Counts }
    ensures ok { IfOk result (λ value. counts_of (view v.now) ≡ Ok (view_of value)) }
    ensures formed { IfOk result (λ value. IsTrue (is_formed p (view_of value))) }
    ensures fault { IfErr result (λ e. e ≢ ValueFail.Memory → counts_of (view v.now) ≡ Err e) }
{
    let items = read_items(v)?;
    let list = read_count_list(alloc, items)?;
    Ok(PropertyValue::Counts(Counts::from_vec(list)))
}
