// Lattices from JSON.

ghost use Rattle.pm_json.specs.Readings.{face_from, faces_from, lattice_of, ranks_from};
ghost use Rattle.pm_props.specs.Properties.{value_kind};
ghost use Rattle.pm_props.specs.declared.property.ValueKind.TheVariants as ValueKind;
ghost use Rattle.pm_types.specs.Forms.{are_indices, is_formed, is_lattice_form};
ghost use Rattle.pm_types.specs.Lists.{lists_of};
ghost use Rattle.pm_types.specs.Views.{view_of};
ghost use Rattle.serde_json.specs.View.{items_view, view};
ghost use Rattle.std.specs.List.{list_all, sum_by};
ghost use Rattle.std.specs.Prelude.{Err, IfErr, IfOk, IsTrue, Ok, [], length, map, ◌+◌, ◌≡◌, ◌≢◌, ◌≤◌};
ghost use Rattle.pm_limits.specs.Limits.{most_faces, most_indices, most_places};

use crate::fail::ValueFail;
use crate::number::{read_index, read_items};
use crate::sets::{has_index, put_index};
use pm_limits::{MOST_FACES, MOST_PLACES};
use pm_props::PropId;
use pm_types::{Lattice, Value as PropertyValue};
use serde_json::Value;
use std::alloc::Global;

/// A face, before which the lattice had so many indices.
fn read_face(alloc: Global, items: &[Value], before: usize) -> Result<Vec<u32>, ValueFail>
    requires { before ≤ most_places }
    ensures ok { IfOk result (λ face. face_from before [] (items_view items.now) ≡ Ok face.items) }
    ensures few { IfOk result (λ face. before + length face.items ≤ most_places) }
    ensures form { IfOk result (λ face. IsTrue (are_indices most_indices 0 face.items)) }
    ensures fault { IfErr result (λ e. e ≢ ValueFail.Memory
        → face_from before [] (items_view items.now) ≡ Err e) }
{
    let mut face = Vec::new(alloc);
    for item in items {
        let j = read_index(item)?;
        if has_index(j, &face) {
            return Err(ValueFail::Shape);
        }
        if before + face.len() >= MOST_PLACES {
            return Err(ValueFail::Limit);
        }
        put_index(j, &mut face)?;
    }
    Ok(face)
}

/// The faces of a rank, before which the lattice had so many faces with so many indices.
fn read_faces(
    alloc: Global,
    items: &[Value],
    before: usize,
    places_before: usize,
) -> Result<Vec<Vec<u32>>, ValueFail>
    requires faces { before ≤ most_faces }
    requires places { places_before ≤ most_places }
    ensures ok { IfOk result (λ faces. faces_from before places_before (items_view items.now)
        ≡ Ok (lists_of faces)) }
    ensures few { IfOk result (λ faces. before + length faces.items ≤ most_faces) }
    ensures places { IfOk result (λ faces. places_before + sum_by length (lists_of faces) ≤ most_places) }
    ensures form { IfOk result (λ faces. IsTrue (list_all (are_indices most_indices 0) (lists_of faces))) }
    ensures fault { IfErr result (λ e. e ≢ ValueFail.Memory
        → faces_from before places_before (items_view items.now) ≡ Err e) }
{
    let mut faces = Vec::new(alloc);
    let mut places = places_before;
    for item in items {
        let indices = read_items(item)?;
        if before + faces.len() >= MOST_FACES {
            return Err(ValueFail::Limit);
        }
        let face = read_face(alloc, indices, places)?;
        places += face.len();
        faces.push(face)?;
    }
    Ok(faces)
}

/// How many indices faces have together.
fn place_count(faces: &[Vec<u32>]) -> usize
    requires { sum_by length (map (λ face. face.items) faces.now) ≤ most_places }
    ensures { result ≡ sum_by length (map (λ face. face.items) faces.now) }
{
    let mut places = 0;
    for face in faces {
        places += face.len();
    }
    places
}

/// The faces of each rank.
fn read_ranks(alloc: Global, items: &[Value]) -> Result<Vec<Vec<Vec<u32>>>, ValueFail>
    ensures ok { IfOk result (λ ranks. ranks_from 0 0 (items_view items.now)
        ≡ Ok (map lists_of ranks.items)) }
    ensures form { IfOk result (λ ranks. IsTrue (is_lattice_form (map lists_of ranks.items))) }
    ensures fault { IfErr result (λ e. e ≢ ValueFail.Memory
        → ranks_from 0 0 (items_view items.now) ≡ Err e) }
{
    let mut ranks = Vec::new(alloc);
    let mut count = 0;
    let mut places = 0;
    for item in items {
        let inner = read_items(item)?;
        let faces = read_faces(alloc, inner, count, places)?;
        count += faces.len();
        places += place_count(&faces);
        ranks.push(faces)?;
    }
    Ok(ranks)
}

/// The lattice that a JSON value is, for a property whose values are lattices.
pub fn read_lattice(alloc: Global, p: PropId, v: &Value) -> Result<PropertyValue, ValueFail>
    requires { value_kind p ≡ ValueKind.Lattice }
    ensures ok { IfOk result (λ value. lattice_of (view v.now) ≡ Ok (view_of value)) }
    ensures formed { IfOk result (λ value. IsTrue (is_formed p (view_of value))) }
    ensures fault { IfErr result (λ e. e ≢ ValueFail.Memory → lattice_of (view v.now) ≡ Err e) }
{
    let items = read_items(v)?;
    let ranks = read_ranks(alloc, items)?;
    Ok(PropertyValue::Lattice(Lattice::from_vec(ranks)))
}
