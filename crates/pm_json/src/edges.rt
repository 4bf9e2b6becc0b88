// Edges from JSON.

ghost use Rattle.pm_json.specs.Readings.{edges_of, nodes_from};
ghost use Rattle.pm_props.specs.Properties.{value_kind};
ghost use Rattle.pm_props.specs.declared.property.ValueKind.TheVariants as ValueKind;
ghost use Rattle.pm_types.specs.Forms.{are_joined_back, is_formed, is_joined_back, joins};
ghost use Rattle.pm_types.specs.Views.{view_of};
ghost use Rattle.serde_json.specs.View.{items_view, view};
ghost use Rattle.std.specs.Prelude.{All, IfErr, IfOk, IsTrue, Err, Ok, length, map, ◌<◌, ◌^◌, ◌≡◌, ◌≢◌};

use crate::fail::ValueFail;
use crate::number::read_items;
use crate::sets::{above_sets, has_index, read_set};
use pm_limits::MOST_ROWS;
use pm_props::PropId;
use pm_types::{Sets, Value as PropertyValue};
use serde_json::Value;
use std::alloc::Global;

/// The neighbours of the nodes.
fn read_nodes(alloc: Global, items: &[Value]) -> Result<Vec<Vec<u32>>, ValueFail>
    ensures ok { IfOk result (λ rows. nodes_from 0 (items_view items.now)
        ≡ Ok (map (λ set. set.items) rows.items)) }
    ensures fault { IfErr result (λ e. e ≢ ValueFail.Memory → nodes_from 0 (items_view items.now) ≡ Err e) }
{
    let mut rows = Vec::new(alloc);
    for item in items {
        let indices = read_items(item)?;
        if rows.len() >= MOST_ROWS {
            return Err(ValueFail::Limit);
        }
        let set = read_set(alloc, indices)?;
        rows.push(set)?;
    }
    Ok(rows)
}

/// Whether another node has this node as its neighbour.
fn joins(rows: &[Vec<u32>], i: usize, j: u32) -> bool
    requires node { i < length rows.now }
    requires other { j < length rows.now }
    requires few { length rows.now < 2 ^ 32 }
    ensures { result ≡ joins (map (λ set. set.items) rows.now) i j }
{
    j as usize != i && has_index(i as u32, &rows[j as usize])
}

/// Whether a node is a neighbour of its neighbours, and not of itself.
fn is_joined_back(rows: &[Vec<u32>], i: usize, row: &[u32]) -> bool
    requires node { i < length rows.now }
    requires few { length rows.now < 2 ^ 32 }
    requires nodes { All (λ j. j < length rows.now) row.now }
    ensures { result ≡ is_joined_back (map (λ set. set.items) rows.now) i row.now }
{
    for j in row {
        if !joins(rows, i, *j) {
            return false;
        }
    }
    true
}

/// Whether each node is a neighbour of its neighbours, and not of itself.
fn are_joined_back(rows: &[Vec<u32>]) -> bool
    requires few { length rows.now < 2 ^ 32 }
    requires nodes { All (λ set. All (λ j. j < length rows.now) set.items) rows.now }
    ensures { result ≡ are_joined_back (map (λ set. set.items) rows.now) 0
        (map (λ set. set.items) rows.now) }
{
    for (i, row) in rows.iter().enumerate() {
        if !is_joined_back(rows, i, row) {
            return false;
        }
    }
    true
}

/// The edges that a JSON value is, for a property whose values are edges.
pub fn read_edges(alloc: Global, p: PropId, v: &Value) -> Result<PropertyValue, ValueFail>
    requires { value_kind p ≡ ValueKind.Edges }
    ensures ok { IfOk result (λ value. edges_of (view v.now) ≡ Ok (view_of value)) }
    ensures formed { IfOk result (λ value. IsTrue (is_formed p (view_of value))) }
    ensures fault { IfErr result (λ e. e ≢ ValueFail.Memory → edges_of (view v.now) ≡ Err e) }
{
    let items = read_items(v)?;
    let rows = read_nodes(alloc, items)?;
    if above_sets(&rows) > rows.len() as u64 {
        return Err(ValueFail::Index);
    }
    if !are_joined_back(&rows) {
        return Err(ValueFail::Shape);
    }
    let nodes = rows.len() as u32;
    Ok(PropertyValue::Edges(Sets::from_vec(rows, nodes)))
}
