// Data files as bytes.

ghost use Rattle.pm_files.specs.Files.{contents, file_bytes, file_json, heading, is_stored, mark_json, marks_json, program_json, stored_keys, type_text, with_name, with_objective, with_programs, with_values};
ghost use Rattle.pm_files.specs.ValueJson.{array_of};
ghost use Rattle.pm_files.specs.Views.{file_of, program_of};
ghost use Rattle.pm_types.specs.Views.{view_of};
ghost use Rattle.serde_json.specs.Data.{string};
ghost use Rattle.serde_json.specs.Read.{read};
ghost use Rattle.serde_json.specs.View.{members_view, view};
ghost use Rattle.std.specs.Prelude.{IfOk, IsUtf8, List, OnOk, Some, [], map, option_map, string_bytes, ℕ, ◌++◌, ◌∷◌, ◌≡◌};

use crate::file::{FileObject, FileProgram};
use crate::value::{objective_json, value_json};
use pm_fraction::Matrix;
use pm_props::{ObjectType, PropId, PropSet};
use pm_types::Value;
use serde_json::{Map, Value as Json, json, put};
use std::alloc::{AllocError, Global};

/// The text of a type.
pub fn type_text(of: ObjectType) -> &'static str
    ensures { result.now ≡ type_text of }
{
    match of {
        ObjectType::Polytope => "polytope::Polytope<Rational>",
        ObjectType::Cone => "polytope::Cone<Rational>",
        ObjectType::Fan => "fan::PolyhedralFan<Rational>",
    }
}

/// `[LABEL,"Ek"]`.
fn mark_json(alloc: Global, mark: &(String, u8)) -> Result<Json, AllocError>
    ensures { IfOk result (λ j. view j ≡ mark_json (string_bytes mark.now.0, mark.now.1)) }
{
    let evidence = format!(in alloc; "E{}", mark.1)?;
    json!(in alloc; [mark.0.as_str(), evidence])
}

/// Rules that failed.
fn marks_json(alloc: Global, failed: &[(String, u8)]) -> Result<Json, AllocError>
    ensures { IfOk result (λ j. view j ≡ marks_json (map (λ m. (string_bytes m.0, m.1)) failed.now)) }
{
    let mut marks = Vec::new(alloc);
    for mark in failed {
        marks.push(mark_json(alloc, mark)?)?;
    }
    Ok(Json::Array(marks))
}

/// Puts a program's name, where it has one.
fn put_name(
    alloc: Global,
    members: &mut Map<String, Json>,
    name: &Option<String>,
) -> Result<(), AllocError>
    ensures { OnOk result (members_view members.new.entries
        ≡ with_name (option_map string_bytes name.now) (members_view members.old.entries)) }
{
    match name {
        Some(text) => put(
            members,
            alloc,
            "_name",
            Json::try_from_str(alloc, text.as_str())?,
        ),
        None => Ok(()),
    }
}

/// Puts a program's objective, where it has one.
fn put_objective(
    alloc: Global,
    members: &mut Map<String, Json>,
    objective: &Option<Matrix>,
) -> Result<(), AllocError>
    ensures { OnOk result (members_view members.new.entries
        ≡ with_objective (option_map (λ m. m.rows) objective.now) (members_view members.old.entries)) }
{
    match objective {
        Some(row) => put(
            members,
            alloc,
            "LINEAR_OBJECTIVE",
            objective_json(alloc, row)?,
        ),
        None => Ok(()),
    }
}

/// A linear program.
fn program_json(alloc: Global, program: &FileProgram) -> Result<Json, AllocError>
    ensures { IfOk result (λ j. view j ≡ program_json (program_of program.now)) }
{
    let mut members = Map::new(alloc);
    put(
        &mut members,
        alloc,
        "_excluded",
        marks_json(alloc, &program.failed)?,
    )?;
    put_name(alloc, &mut members, &program.name)?;
    put_objective(alloc, &mut members, &program.objective)?;
    Ok(Json::Object(members))
}

/// Each linear program.
fn programs_json(alloc: Global, programs: &[FileProgram]) -> Result<Json, AllocError>
    ensures { IfOk result (λ j. view j ≡ array_of (map program_json (map program_of programs.now))) }
{
    let mut items = Vec::new(alloc);
    for program in programs {
        items.push(program_json(alloc, program)?)?;
    }
    Ok(Json::Array(items))
}

/// Puts the linear programs, where there are any.
fn put_programs(
    alloc: Global,
    members: &mut Map<String, Json>,
    programs: &[FileProgram],
) -> Result<(), AllocError>
    ensures { OnOk result (members_view members.new.entries
        ≡ with_programs (map program_of programs.now) (members_view members.old.entries)) }
{
    if programs.is_empty() {
        return Ok(());
    }
    put(members, alloc, "LP", programs_json(alloc, programs)?)
}

/// Puts each value under its name in the table of the type.
fn put_values(
    alloc: Global,
    members: &mut Map<String, Json>,
    of: ObjectType,
    values: &[(PropId, Value)],
) -> Result<(), AllocError>
    ensures { OnOk result (members_view members.new.entries
        ≡ with_values of (map (λ v. (v.0, view_of v.1)) values.now) (members_view members.old.entries)) }
{
    for value in values {
        let json = value_json(alloc, value.0, &value.1)?;
        put(members, alloc, value.0.name_in(of), json)?;
    }
    Ok(())
}

/// Whether a key is the name of a stored value.
fn is_stored(of: ObjectType, stored: PropSet, key: &str) -> bool
    ensures { result ≡ is_stored of stored key.now }
{
    match PropId::named_in(of, key) {
        Some(p) => stored.contains(p),
        None => false,
    }
}

/// The keys of stored values.
fn stored_keys(
    alloc: Global,
    of: ObjectType,
    stored: PropSet,
    members: &Map<String, Json>,
) -> Result<Vec<Json>, AllocError>
    ensures { IfOk result (λ keys. map view keys.items
        ≡ map string (stored_keys of stored (members_view members.now.entries))) }
{
    let mut keys = Vec::new(alloc);
    for (key, _) in members.iter() {
        if is_stored(of, stored, key.as_str()) {
            keys.push(Json::try_from_str(alloc, key.as_str())?)?;
        }
    }
    Ok(keys)
}

/// The type, the profile, and the rules that failed.
fn heading(alloc: Global, o: &FileObject) -> Result<Map<String, Json>, AllocError>
    ensures { IfOk result (λ members. members_view members.entries ≡ heading (file_of o.now)) }
{
    let mut members = Map::new(alloc);
    put(
        &mut members,
        alloc,
        "_type",
        Json::try_from_str(alloc, type_text(o.of))?,
    )?;
    put(&mut members, alloc, "_profile", Json::from(2u64))?;
    put(
        &mut members,
        alloc,
        "_excluded",
        marks_json(alloc, &o.failed)?,
    )?;
    Ok(members)
}

/// All but the names of stored values.
fn contents(alloc: Global, o: &FileObject) -> Result<Map<String, Json>, AllocError>
    ensures { IfOk result (λ members. members_view members.entries ≡ contents (file_of o.now)) }
{
    let mut members = heading(alloc, o)?;
    put_values(alloc, &mut members, o.of, &o.values)?;
    put_programs(alloc, &mut members, &o.programs)?;
    Ok(members)
}

/// The file.
fn file_json(alloc: Global, o: &FileObject) -> Result<Json, AllocError>
    ensures { IfOk result (λ j. view j ≡ file_json (file_of o.now)) }
{
    let mut members = contents(alloc, o)?;
    let keys = stored_keys(alloc, o.of, o.stored, &members)?;
    put(&mut members, alloc, "_computed", Json::Array(keys))?;
    Ok(Json::Object(members))
}

/// The bytes of a file, compact and ended by LF.
pub fn object_bytes(alloc: Global, o: &FileObject) -> Result<Vec<u8>, AllocError>
    ensures bytes { IfOk result (λ bytes. bytes.items ≡ file_bytes (file_of o.now)) }
    ensures utf8 { IfOk result (λ bytes. IsUtf8 bytes.items) }
    ensures reads_back { IfOk result (λ bytes. read bytes.items ≡ Some (file_json (file_of o.now))) }
{
    let json = file_json(alloc, o)?;
    let mut text = json.to_string(alloc)?;
    text.push('\n')?;
    Ok(text.into_bytes())
}
