// Sets from JSON.

ghost use Rattle.pm_json.specs.Readings.{above_set, above_sets, cols_member, has_index, has_one_member, set_from, sets_from, sets_of, stated_last, stated_of, with_index};
ghost use Rattle.pm_types.specs.Views.{view_of};
ghost use Rattle.serde_json.specs.View.{items_view, view};
ghost use Rattle.std.specs.List.{insert};
ghost use Rattle.std.specs.Prelude.{IfErr, IfOk, OnOk, [], length, map, nat_lt, ◌≡◌, ◌≢◌, ◌≤◌};

use crate::fail::ValueFail;
use crate::number::{read_count, read_index, read_items};
use pm_limits::MOST_ROWS;
use pm_types::{Sets, Value as PropertyValue};
use serde_json::Value;
use std::alloc::{AllocError, Global};

/// Sets, and the column count that is stated behind them, if one is.
#[derive(Drop)]
struct SetList {
    rows: Vec<Vec<u32>>,
    stated: Option<u32>,
}

/// Whether a set has an index.
pub(crate) fn has_index(j: u32, set: &[u32]) -> bool
    ensures { result ≡ has_index j set.now }
{
    set.iter().any(|k| *k == j)
}

/// Whether an index stands before another in a set.
fn stands_before(j: u32, k: u32) -> bool
    ensures { result ≡ nat_lt j k }
{
    j < k
}

/// Where an index is to be put into an ascending set.
fn place_of(j: u32, set: &[u32]) -> usize
    ensures place { insert set.now result j ≡ with_index j set.now }
    ensures within { result ≤ length set.now }
{
    for (i, k) in set.iter().enumerate() {
        if stands_before(j, *k) {
            return i;
        }
    }
    set.len()
}

/// Puts an index into an ascending set.
pub(crate) fn put_index(j: u32, set: &mut Vec<u32>) -> Result<(), AllocError>
    ensures { OnOk result (set.new.items ≡ with_index j set.old.items) }
{
    let place = place_of(j, set);
    set.insert(place, j)?;
    Ok(())
}

/// A set.
pub(crate) fn read_set(alloc: Global, items: &[Value]) -> Result<Vec<u32>, ValueFail>
    ensures ok { IfOk result (λ set. set_from [] (items_view items.now) ≡ Ok set.items) }
    ensures fault { IfErr result (λ e. e ≢ ValueFail.Memory → set_from [] (items_view items.now) ≡ Err e) }
{
    let mut set = Vec::new(alloc);
    for item in items {
        let j = read_index(item)?;
        if has_index(j, &set) {
            return Err(ValueFail::Shape);
        }
        put_index(j, &mut set)?;
    }
    Ok(set)
}

/// Whether a JSON value is an object with one member.
fn has_one_member(v: &Value) -> bool
    ensures { result ≡ has_one_member (view v.now) }
{
    match v.as_object() {
        Some(members) => members.len() == 1,
        None => false,
    }
}

/// The n of `{"cols":n}`.
pub(crate) fn read_cols_member(v: &Value) -> Result<&Value, ValueFail>
    ensures ok { IfOk result (λ n. cols_member (view v.now) ≡ Ok (view n.now)) }
    ensures fault { IfErr result (λ e. cols_member (view v.now) ≡ Err e) }
{
    if !has_one_member(v) {
        return Err(ValueFail::Shape);
    }
    match v.get("cols") {
        Some(n) => Ok(n),
        None => Err(ValueFail::Shape),
    }
}

/// The column count of sets.
fn read_stated(v: &Value) -> Result<u32, ValueFail>
    ensures { result ≡ stated_of (view v.now) }
{
    let n = read_cols_member(v)?;
    read_count(n)
}

/// The n of `{"cols":n}`, behind which nothing stands.
fn read_last(v: &Value, behind: &[Value]) -> Result<u32, ValueFail>
    ensures ok { IfOk result (λ n. stated_last (view v.now) (items_view behind.now)
        ≡ Ok (record { rows = []; stated = Some n })) }
    ensures fault { IfErr result (λ e. stated_last (view v.now) (items_view behind.now) ≡ Err e) }
{
    if !behind.is_empty() {
        return Err(ValueFail::Shape);
    }
    read_stated(v)
}

/// The sets, and the column count behind them.
fn read_set_list(alloc: Global, items: &[Value]) -> Result<SetList, ValueFail>
    ensures ok { IfOk result (λ s. sets_from 0 (items_view items.now)
        ≡ Ok (record { rows = map (λ set. set.items) s.rows.items; stated = s.stated })) }
    ensures fault { IfErr result (λ e. e ≢ ValueFail.Memory → sets_from 0 (items_view items.now) ≡ Err e) }
{
    let mut rows = Vec::new(alloc);
    for (i, item) in items.iter().enumerate() {
        if item.is_object() {
            let n = read_last(item, &items[i + 1..])?;
            return Ok(SetList {
                rows,
                stated: Some(n),
            });
        }
        let indices = read_items(item)?;
        if rows.len() >= MOST_ROWS {
            return Err(ValueFail::Limit);
        }
        let set = read_set(alloc, indices)?;
        rows.push(set)?;
    }
    Ok(SetList { rows, stated: None })
}

/// The least number above each index of a set.
fn above_set(set: &[u32]) -> u64
    ensures { result ≡ above_set set.now }
{
    let mut above = 0;
    for j in set {
        above = above.max(u64::from(*j) + 1);
    }
    above
}

/// The least number above each index of each set.
pub(crate) fn above_sets(rows: &[Vec<u32>]) -> u64
    ensures { result ≡ above_sets (map (λ set. set.items) rows.now) }
{
    let mut above = 0;
    for set in rows {
        above = above.max(above_set(set));
    }
    above
}

/// The sets that a JSON value is.
pub fn read_sets(alloc: Global, v: &Value) -> Result<PropertyValue, ValueFail>
    ensures ok { IfOk result (λ value. sets_of (view v.now) ≡ Ok (view_of value)) }
    ensures fault { IfErr result (λ e. e ≢ ValueFail.Memory → sets_of (view v.now) ≡ Err e) }
{
    let items = read_items(v)?;
    let list = read_set_list(alloc, items)?;
    let above = above_sets(&list.rows);
    match list.stated {
        None => Ok(PropertyValue::Sets(Sets::from_vec(list.rows, above as u32))),
        Some(n) if above <= u64::from(n) => Ok(PropertyValue::Sets(Sets::from_vec(list.rows, n))),
        Some(_) => Err(ValueFail::Index),
    }
}
