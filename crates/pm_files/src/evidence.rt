// Evidence as JSON.

ghost use Rattle.pm_files.specs.EvidenceJson.{column_json, entry_json, evidence_json, evidence_text, list_json, whole_row_json, whole_rows_json};
ghost use Rattle.pm_geom.specs.declared.evidence.Evidence.TheVariants.{E1, E2, E3, E4, E5Cells, E5Rays};
ghost use Rattle.serde_json.specs.Data.{member, no_members, object};
ghost use Rattle.serde_json.specs.Read.{read};
ghost use Rattle.serde_json.specs.View.{view};
ghost use Rattle.std.specs.Prelude.{IfOk, Some, string_bytes, ◌≡◌};

use crate::value::{edges_json, set_json};
use pm_geom::{Evidence, PlaceSets, Places, RowList};
use pm_vector::{ElimEvidence, ElimList, Ints};
use serde_json::{Map, Value as Json, put};
use std::alloc::{AllocError, Global};

/// A whole number is its text.
fn entry_json(alloc: Global, n: i128) -> Result<Json, AllocError>
    ensures { IfOk result (λ j. view j ≡ entry_json n) }
{
    Ok(Json::String(format!(in alloc; "{n}")?))
}

/// A row of whole numbers.
fn whole_row_json(alloc: Global, row: &[i128]) -> Result<Json, AllocError>
    ensures { IfOk result (λ j. view j ≡ whole_row_json row.now) }
{
    let mut entries = Vec::new(alloc);
    for n in row {
        entries.push(entry_json(alloc, *n)?)?;
    }
    Ok(Json::Array(entries))
}

/// Rows of whole numbers.
fn whole_rows_json(alloc: Global, rows: &[Ints]) -> Result<Json, AllocError>
    ensures { IfOk result (λ j. view j ≡ whole_rows_json rows.now) }
{
    let mut items = Vec::new(alloc);
    for row in rows {
        items.push(whole_row_json(alloc, row.as_slice())?)?;
    }
    Ok(Json::Array(items))
}

/// Which list was eliminated.
fn list_json(alloc: Global, list: ElimList) -> Result<Json, AllocError>
    ensures { IfOk result (λ j. view j ≡ list_json list) }
{
    match list {
        ElimList::Rows => Json::try_from_str(alloc, "rows"),
        ElimList::Extended => Json::try_from_str(alloc, "extended"),
        ElimList::Without(j) => one_member(alloc, "without", Json::from(j)),
        ElimList::ExtendedWithout(j) => one_member(alloc, "extended_without", Json::from(j)),
    }
}

/// A column, if there is one.
fn column_json(column: Option<u32>) -> Json
    ensures { view result ≡ column_json column }
{
    match column {
        Some(j) => Json::from(j),
        None => Json::Null,
    }
}

/// A step of an elimination.
fn step_json(alloc: Global, step: &ElimEvidence) -> Result<Json, AllocError>
    ensures { IfOk result (λ j. view j ≡ evidence_json (E1 step.now)) }
{
    let mut members = Map::new(alloc);
    put(
        &mut members,
        alloc,
        "basis",
        whole_rows_json(alloc, &step.basis)?,
    )?;
    put(&mut members, alloc, "by", Json::from(step.by))?;
    put(&mut members, alloc, "column", Json::from(step.column))?;
    put(&mut members, alloc, "front", Json::from(step.front))?;
    put(&mut members, alloc, "list", list_json(alloc, step.list)?)?;
    put(
        &mut members,
        alloc,
        "part",
        whole_row_json(alloc, step.part.as_slice())?,
    )?;
    Ok(Json::Object(members))
}

/// Two rays whose combination leaves the range.
fn rays_json(
    alloc: Global,
    front: u32,
    first: &Ints,
    second: &Ints,
    column: Option<u32>,
) -> Result<Json, AllocError>
    ensures { IfOk result (λ j. view j ≡ evidence_json (E2 front first.now second.now column)) }
{
    let mut members = Map::new(alloc);
    put(&mut members, alloc, "column", column_json(column))?;
    put(
        &mut members,
        alloc,
        "first",
        whole_row_json(alloc, first.as_slice())?,
    )?;
    put(&mut members, alloc, "front", Json::from(front))?;
    put(
        &mut members,
        alloc,
        "second",
        whole_row_json(alloc, second.as_slice())?,
    )?;
    Ok(Json::Object(members))
}

/// A pivot whose new entry leaves the range.
fn pivot_json(
    alloc: Global,
    basis: &Places,
    enter: u32,
    leave: u32,
    row: u32,
    column: u32,
) -> Result<Json, AllocError>
    ensures { IfOk result (λ j. view j ≡ evidence_json (E3 basis.now enter leave row column)) }
{
    let mut members = Map::new(alloc);
    put(
        &mut members,
        alloc,
        "basis",
        set_json(alloc, basis.as_slice())?,
    )?;
    put(&mut members, alloc, "column", Json::from(column))?;
    put(&mut members, alloc, "enter", Json::from(enter))?;
    put(&mut members, alloc, "leave", Json::from(leave))?;
    put(&mut members, alloc, "row", Json::from(row))?;
    Ok(Json::Object(members))
}

/// Two rows by which a number leaves the range.
fn pair_json(alloc: Global, first: &Ints, second: &Ints) -> Result<Json, AllocError>
    ensures { IfOk result (λ j. view j ≡ evidence_json (E4 first.now second.now)) }
{
    let mut members = Map::new(alloc);
    put(
        &mut members,
        alloc,
        "first",
        whole_row_json(alloc, first.as_slice())?,
    )?;
    put(
        &mut members,
        alloc,
        "second",
        whole_row_json(alloc, second.as_slice())?,
    )?;
    Ok(Json::Object(members))
}

/// Too many rays.
fn front_rays_json(alloc: Global, front: u32, rays: &RowList) -> Result<Json, AllocError>
    ensures { IfOk result (λ j. view j ≡ evidence_json (E5Rays front rays.now)) }
{
    let mut members = Map::new(alloc);
    put(&mut members, alloc, "front", Json::from(front))?;
    put(
        &mut members,
        alloc,
        "rays",
        whole_rows_json(alloc, rays.as_slice())?,
    )?;
    Ok(Json::Object(members))
}

/// Too many cells.
fn front_cells_json(alloc: Global, front: u32, cells: &PlaceSets) -> Result<Json, AllocError>
    ensures { IfOk result (λ j. view j ≡ evidence_json (E5Cells front cells.now)) }
{
    let mut members = Map::new(alloc);
    put(
        &mut members,
        alloc,
        "cells",
        edges_json(alloc, cells.as_slice())?,
    )?;
    put(&mut members, alloc, "front", Json::from(front))?;
    Ok(Json::Object(members))
}

/// An object of one member.
fn one_member(alloc: Global, key: &str, value: Json) -> Result<Json, AllocError>
    ensures { IfOk result (λ j. view j ≡ object (member key.now (view value) no_members)) }
{
    let mut members = Map::new(alloc);
    put(&mut members, alloc, key, value)?;
    Ok(Json::Object(members))
}

/// The JSON of evidence.
fn evidence_json(alloc: Global, e: &Evidence) -> Result<Json, AllocError>
    ensures { IfOk result (λ j. view j ≡ evidence_json e.now) }
{
    match e {
        Evidence::E1(step) => step_json(alloc, step),
        Evidence::E2 {
            front,
            first,
            second,
            column,
        } => rays_json(alloc, *front, first, second, *column),
        Evidence::E3 {
            basis,
            enter,
            leave,
            row,
            column,
        } => pivot_json(alloc, basis, *enter, *leave, *row, *column),
        Evidence::E4 { first, second } => pair_json(alloc, first, second),
        Evidence::E5Rays { front, rays } => front_rays_json(alloc, *front, rays),
        Evidence::E5Rows { rows } => one_member(alloc, "places", set_json(alloc, rows.as_slice())?),
        Evidence::E5Faces { faces } => {
            one_member(alloc, "faces", edges_json(alloc, faces.as_slice())?)
        }
        Evidence::E5Cells { front, cells } => front_cells_json(alloc, *front, cells),
    }
}

/// The text of evidence: its JSON without spaces, which is read as that JSON.
pub fn evidence_text(alloc: Global, e: &Evidence) -> Result<String, AllocError>
    ensures text { IfOk result (λ t. string_bytes t ≡ evidence_text e.now) }
    ensures reads_back { IfOk result (λ t. read (string_bytes t) ≡ Some (evidence_json e.now)) }
{
    let json = evidence_json(alloc, e)?;
    let text = json.to_string(alloc)?;
    Ok(text)
}
