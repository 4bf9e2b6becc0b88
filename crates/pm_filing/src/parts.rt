// The parts of an object that stand in a data file, read in byte order of keys.

ghost use Rattle.pm_filing.specs.FileParts.{bad_property, is_other_form, is_programs_key, objective_in, objectives_from, out_of_memory, part_at, parts_in, programs_of, programs_part, property_at, type_in, type_named, value_part};
ghost use Rattle.pm_filing.specs.Profiles.{programs_in};
ghost use Rattle.pm_filing.specs.ReadingViews.{are_formed_parts, fault_of, is_formed_objective, is_formed_part, objectives_seen, part_seen};
ghost use Rattle.pm_types.specs.Views.{view_of};
ghost use Rattle.serde_json.specs.View.{items_view, members_view, view};
ghost use Rattle.std.specs.List.{list_all};
ghost use Rattle.std.specs.Prelude.{Err, IfErr, IfOk, IsTrue, Ok, OnOk, Some, [], map, option_map, option_to_list, ◌∷◌, ◌≡◌, ◌≢◌, ◌++◌};

use crate::fail::FileFail;
use pm_files::type_text;
use pm_json::{ValueFail, read_value};
use pm_limits::MOST_PROGRAMS;
use pm_props::{ObjectType, PropId, ValueKind};
use pm_types::Value;
use serde_json::{Map, Value as Json};
use std::alloc::{AllocError, Global};
use std::slice;

/// What a data file has at a key.
#[derive(Drop)]
pub enum FilePart {
    /// The value of a property.
    Value(PropId, Value),
    /// The objective of each linear program, where it has one.
    Programs(Vec<Option<Value>>),
}

/// The type of a text.
fn type_named(text: &str) -> Option<ObjectType>
    ensures { result ≡ type_named text.now }
{
    if text == type_text(ObjectType::Polytope) {
        return Some(ObjectType::Polytope);
    }
    if text == type_text(ObjectType::Cone) {
        return Some(ObjectType::Cone);
    }
    if text == type_text(ObjectType::Fan) {
        return Some(ObjectType::Fan);
    }
    None
}

/// The type that a file states.
pub(crate) fn read_type(json: &Json) -> Result<ObjectType, FileFail>
    ensures ok { IfOk result (λ of. type_in (view json.now) ≡ Ok of) }
    ensures fault { IfErr result (λ e. type_in (view json.now) ≡ Err (fault_of e)) }
{
    let Some(found) = json.get("_type") else {
        return Err(FileFail::NoType);
    };
    let Some(text) = found.as_str() else {
        return Err(FileFail::NoType);
    };
    match type_named(text) {
        Some(of) => Ok(of),
        None => Err(FileFail::UnknownType),
    }
}

/// Whether a graph or a lattice is of another form, an object.
fn is_other_form(p: PropId, json: &Json) -> bool
    ensures { result ≡ is_other_form p (view json.now) }
{
    json.is_object() && matches!(p.row().kind, ValueKind::Edges | ValueKind::Lattice)
}

/// The property whose value is read at a key, if there is one.
pub(crate) fn property_at(of: ObjectType, key: &str, json: &Json) -> Option<PropId>
    ensures { result ≡ property_at of key.now (view json.now) }
{
    match PropId::named_in(of, key) {
        Some(p) => {
            if is_other_form(p, json) {
                None
            } else {
                Some(p)
            }
        }
        None => None,
    }
}

/// Whether linear programs stand at a key.
pub(crate) fn is_programs_key(of: ObjectType, key: &str) -> bool
    ensures { result ≡ is_programs_key of key.now }
{
    match of {
        ObjectType::Polytope => key == "LP",
        ObjectType::Cone | ObjectType::Fan => false,
    }
}

/// The objective of a linear program, if it has one.
fn read_objective(alloc: Global, program: &Json) -> Result<Option<Value>, ValueFail>
    ensures ok { IfOk result (λ v. objective_in (view program.now) ≡ Ok (option_map view_of v)) }
    ensures formed { IfOk result (λ v. IsTrue (is_formed_objective (option_map view_of v))) }
    ensures fault { IfErr result (λ e. e ≢ ValueFail.Memory → objective_in (view program.now) ≡ Err e) }
{
    match program.get("LINEAR_OBJECTIVE") {
        Some(json) => Ok(Some(read_value(alloc, PropId::LinearObjective, json)?)),
        None => Ok(None),
    }
}

/// The objectives of linear programs.
fn read_objectives(alloc: Global, list: &[Json]) -> Result<Vec<Option<Value>>, ValueFail>
    ensures ok { IfOk result (λ vs. objectives_from 0 (items_view list.now)
        ≡ Ok (objectives_seen vs.items)) }
    ensures formed { IfOk result (λ vs. IsTrue (list_all is_formed_objective (objectives_seen vs.items))) }
    ensures fault { IfErr result (λ e. e ≢ ValueFail.Memory
        → objectives_from 0 (items_view list.now) ≡ Err e) }
{
    let mut objectives = Vec::new(alloc);
    for program in list {
        if !program.is_object() {
            return Err(ValueFail::Shape);
        }
        if objectives.len() >= MOST_PROGRAMS {
            return Err(ValueFail::Limit);
        }
        let objective = read_objective(alloc, program)?;
        objectives.push(objective)?;
    }
    Ok(objectives)
}

/// The linear programs: one, or those of an array.
pub(crate) fn programs_of(json: &Json) -> Result<&[Json], ValueFail>
    ensures ok { IfOk result (λ list. programs_of (view json.now) ≡ Ok (items_view list.now)) }
    ensures fault { IfErr result (λ e. programs_of (view json.now) ≡ Err e) }
{
    if json.is_object() {
        return Ok(slice::from_ref(json));
    }
    match json.as_array() {
        Some(list) => Ok(list),
        None => Err(ValueFail::Shape),
    }
}

/// The objectives of one linear program, or of those of an array.
fn read_programs(alloc: Global, json: &Json) -> Result<FilePart, ValueFail>
    ensures ok { IfOk result (λ part. programs_part (view json.now) ≡ Ok (part_seen part ∷ [])) }
    ensures formed { IfOk result (λ part. IsTrue (is_formed_part (part_seen part))) }
    ensures fault { IfErr result (λ e. e ≢ ValueFail.Memory → programs_part (view json.now) ≡ Err e) }
{
    let list = programs_of(json)?;
    let objectives = read_objectives(alloc, list)?;
    Ok(FilePart::Programs(objectives))
}

/// The value of a property.
fn read_property(alloc: Global, p: PropId, json: &Json) -> Result<FilePart, ValueFail>
    ensures ok { IfOk result (λ part. value_part (Some p) (view json.now) ≡ Ok (part_seen part ∷ [])) }
    ensures formed { IfOk result (λ part. IsTrue (is_formed_part (part_seen part))) }
    ensures fault { IfErr result (λ e. e ≢ ValueFail.Memory → value_part (Some p) (view json.now) ≡ Err e) }
{
    let value = read_value(alloc, p, json)?;
    Ok(FilePart::Value(p, value))
}

/// The fault of a key.
fn fault_at(alloc: Global, key: &str, why: ValueFail) -> FileFail
    ensures { fault_of result ≢ out_of_memory
        → (fault_of result ≡ bad_property key.now why) × (why ≢ ValueFail.Memory) }
{
    if why == ValueFail::Memory {
        return FileFail::Memory;
    }
    match String::from_str(alloc, key) {
        Ok(name) => FileFail::BadProperty { name, why },
        Err(_) => FileFail::Memory,
    }
}

/// What is read at a key, if anything is.
fn read_part(
    alloc: Global,
    of: ObjectType,
    key: &str,
    json: &Json,
) -> Result<Option<FilePart>, FileFail>
    ensures ok { IfOk result (λ part. part_at of key.now (view json.now)
        ≡ Ok (option_to_list (option_map part_seen part))) }
    ensures formed { IfOk result (λ part.
        IsTrue (are_formed_parts (option_to_list (option_map part_seen part)))) }
    ensures fault { IfErr result (λ e. fault_of e ≢ out_of_memory
        → part_at of key.now (view json.now) ≡ Err (fault_of e)) }
{
    if is_programs_key(of, key) {
        return match read_programs(alloc, json) {
            Ok(part) => Ok(Some(part)),
            Err(why) => Err(fault_at(alloc, key, why)),
        };
    }
    let Some(p) = property_at(of, key, json) else {
        return Ok(None);
    };
    match read_property(alloc, p, json) {
        Ok(part) => Ok(Some(part)),
        Err(why) => Err(fault_at(alloc, key, why)),
    }
}

/// Puts what was read behind what was read before.
fn put_part(parts: &mut Vec<FilePart>, part: Option<FilePart>) -> Result<(), AllocError>
    ensures { OnOk result (map part_seen parts.new.items ≡ map part_seen parts.old.items
        ++ option_to_list (option_map part_seen part)) }
{
    if let Some(part) = part {
        parts.push(part)?;
    }
    Ok(())
}

/// The parts of an object, in the order of the keys.
pub(crate) fn read_parts(
    alloc: Global,
    of: ObjectType,
    members: &Map<String, Json>,
) -> Result<Vec<FilePart>, FileFail>
    ensures ok { IfOk result (λ parts. parts_in of (members_view members.now.entries)
        ≡ Ok (map part_seen parts.items)) }
    ensures formed { IfOk result (λ parts. IsTrue (are_formed_parts (map part_seen parts.items))) }
    ensures fault { IfErr result (λ e. fault_of e ≢ out_of_memory
        → parts_in of (members_view members.now.entries) ≡ Err (fault_of e)) }
{
    let mut parts = Vec::new(alloc);
    for (key, json) in members.iter() {
        let part = read_part(alloc, of, key.as_str(), json)?;
        put_part(&mut parts, part)?;
    }
    Ok(parts)
}

/// The linear programs of a file, where its type has such.
pub(crate) fn programs_in(of: ObjectType, json: &Json) -> &[Json]
    ensures { items_view result.now ≡ programs_in of (view json.now) }
{
    if !is_programs_key(of, "LP") {
        return &[];
    }
    let Some(found) = json.get("LP") else {
        return &[];
    };
    match programs_of(found) {
        Ok(list) => list,
        Err(_) => &[],
    }
}
