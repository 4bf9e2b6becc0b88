// Numbers from JSON.

ghost use Rattle.pm_vector.specs.Numbers.{InRange};
ghost use Rattle.pm_json.specs.Readings.{count_of, entry_of, index_below_limit, index_of, items_of, number_of, ratio_of_text, whole_fraction_of, whole_number_of};
ghost use Rattle.pm_types.specs.Views.{over_one};
ghost use Rattle.serde_json.specs.View.{items_view, number_view, view};
ghost use Rattle.std.specs.Prelude.{IfErr, IfOk, ◌≡◌};

use crate::fail::ValueFail;
use pm_fraction::Fraction;
use pm_limits::MOST_ROWS;
use serde_json::{Number, Value};

const COUNT_LIMIT: i128 = MOST_ROWS as i128;

const INDEX_LIMIT: i128 = MOST_ROWS as i128;

/// The elements of an array.
pub fn read_items(v: &Value) -> Result<&[Value], ValueFail>
    ensures ok { IfOk result (λ items. items_of (view v.now) ≡ Ok (items_view items.now)) }
    ensures fault { IfErr result (λ e. items_of (view v.now) ≡ Err e) }
{
    match v.as_array() {
        Some(items) => Ok(items),
        None => Err(ValueFail::Shape),
    }
}

/// A whole number as a fraction.
fn fraction_of(k: i128) -> Fraction
    requires { InRange k }
    ensures { result ≡ over_one k }
{
    match Fraction::from_whole(k) {
        Ok(fraction) => fraction,
        Err(_) => unreachable!(),
    }
}

/// The fraction that a number is, where it is whole.
fn read_fraction(number: &Number) -> Result<Fraction, ValueFail>
    ensures { result ≡ whole_fraction_of (number_view number.now) }
{
    if let Some(k) = number.as_i64() {
        return Ok(fraction_of(i128::from(k)));
    }
    match number.as_u64() {
        Some(k) => Ok(fraction_of(i128::from(k))),
        None => Err(ValueFail::Number),
    }
}

/// The fraction that a JSON number is.
fn read_number(v: &Value) -> Result<Fraction, ValueFail>
    ensures { result ≡ number_of (view v.now) }
{
    match v.as_number() {
        Some(number) => read_fraction(number),
        None => Err(ValueFail::Shape),
    }
}

/// The fraction that a text writes.
fn read_text(text: &str) -> Result<Fraction, ValueFail>
    ensures { result ≡ ratio_of_text text.now }
{
    match Fraction::read(text) {
        Ok(fraction) => Ok(fraction),
        Err(_) => Err(ValueFail::Number),
    }
}

/// An entry of a matrix: a text that writes a fraction, or a whole number.
pub fn read_entry(v: &Value) -> Result<Fraction, ValueFail>
    ensures { result ≡ entry_of (view v.now) }
{
    match v.as_str() {
        Some(text) => read_text(text),
        None => read_number(v),
    }
}

/// A whole number.
pub(crate) fn read_whole_number(v: &Value) -> Result<i128, ValueFail>
    ensures { result ≡ whole_number_of (view v.now) }
{
    let Some(number) = v.as_number() else {
        return Err(ValueFail::Shape);
    };
    match number.as_i128() {
        Some(k) => Ok(k),
        None => Err(ValueFail::Number),
    }
}

/// A number as an index, where it is one.
fn index_below_limit(k: i128) -> Result<u32, ValueFail>
    ensures { result ≡ index_below_limit k }
{
    if k < 0 {
        Err(ValueFail::Index)
    } else if k < INDEX_LIMIT {
        Ok(k as u32)
    } else {
        Err(ValueFail::Limit)
    }
}

/// An index below `MOST_ROWS`.
pub fn read_index(v: &Value) -> Result<u32, ValueFail>
    ensures { result ≡ index_of (view v.now) }
{
    index_below_limit(read_whole_number(v)?)
}

/// A count of at most `MOST_ROWS`.
pub fn read_count(v: &Value) -> Result<u32, ValueFail>
    ensures { result ≡ count_of (view v.now) }
{
    let k = read_whole_number(v)?;
    if 0 <= k && k <= COUNT_LIMIT {
        Ok(k as u32)
    } else {
        Err(ValueFail::Limit)
    }
}
