// The names of what is read over in a data file.

ghost use Rattle.pm_filing.specs.FileParts.{ignored_in, is_hidden, is_other_key, is_read_over, names_in_programs, names_read_over, other_keys_from, other_keys_of, with_other_key, with_other_keys};
ghost use Rattle.serde_json.specs.Data.{no_members};
ghost use Rattle.serde_json.specs.Find.{as_object};
ghost use Rattle.serde_json.specs.View.{items_view, members_view, view};
ghost use Rattle.std.specs.Prelude.{IfOk, OnOk, map, string_bytes, ◌++◌, ◌≡◌};

use crate::parts::{is_programs_key, property_at};
use pm_props::ObjectType;
use serde_json::{Map, Value as Json, put};
use std::alloc::{AllocError, Global};

/// Whether a key begins with `_`.
fn is_hidden(key: &str) -> bool
    ensures { result ≡ is_hidden key.now }
{
    !key.is_empty() && key.as_bytes()[0] == b'_'
}

/// Whether a member is read over, and named.
fn is_read_over(of: ObjectType, key: &str, json: &Json) -> bool
    ensures { result ≡ is_read_over of key.now (view json.now) }
{
    !is_hidden(key) && !is_programs_key(of, key) && !property_at(of, key, json).is_some()
}

/// The names of members that are read over.
fn names_read_over(
    alloc: Global,
    of: ObjectType,
    members: &Map<String, Json>,
) -> Result<Vec<String>, AllocError>
    ensures { IfOk result (λ names. map string_bytes names.items
        ≡ names_read_over of (members_view members.now.entries)) }
{
    let mut names = Vec::new(alloc);
    for (key, json) in members.iter() {
        if is_read_over(of, key.as_str(), json) {
            names.push(String::from_str(alloc, key.as_str())?)?;
        }
    }
    Ok(names)
}

/// Whether a program's key is read over, and named.
fn is_other_key(key: &str) -> bool
    ensures { result ≡ is_other_key key.now }
{
    !is_hidden(key) && key != "LINEAR_OBJECTIVE"
}

/// Puts a program's key that is read over among the keys.
fn put_other_key(alloc: Global, keys: &mut Map<String, Json>, key: &str) -> Result<(), AllocError>
    ensures { OnOk result (members_view keys.new.entries
        ≡ with_other_key (members_view keys.old.entries) key.now) }
{
    if is_other_key(key) {
        put(keys, alloc, key, Json::Null)?;
    }
    Ok(())
}

/// Puts the keys of a program that are read over among the keys.
fn put_other_keys(
    alloc: Global,
    keys: &mut Map<String, Json>,
    program: &Map<String, Json>,
) -> Result<(), AllocError>
    ensures { OnOk result (members_view keys.new.entries
        ≡ with_other_keys (members_view keys.old.entries) (members_view program.now.entries)) }
{
    for (key, _) in program.iter() {
        put_other_key(alloc, keys, key.as_str())?;
    }
    Ok(())
}

/// The same, where the program is an object.
fn put_program_keys(
    alloc: Global,
    keys: &mut Map<String, Json>,
    program: &Json,
) -> Result<(), AllocError>
    ensures { OnOk result (members_view keys.new.entries
        ≡ other_keys_of (members_view keys.old.entries) (as_object (view program.now))) }
{
    match program.as_object() {
        Some(members) => put_other_keys(alloc, keys, members),
        None => Ok(()),
    }
}

/// The keys of programs that are read over, each once, in byte order.
fn other_keys(alloc: Global, list: &[Json]) -> Result<Map<String, Json>, AllocError>
    ensures { IfOk result (λ keys. members_view keys.entries
        ≡ other_keys_from no_members (items_view list.now)) }
{
    let mut keys = Map::new(alloc);
    for program in list {
        put_program_keys(alloc, &mut keys, program)?;
    }
    Ok(keys)
}

/// Puts `LP.KEY` for each key behind the names.
fn put_names(
    alloc: Global,
    names: &mut Vec<String>,
    keys: &Map<String, Json>,
) -> Result<(), AllocError>
    ensures { OnOk result (map string_bytes names.new.items ≡ map string_bytes names.old.items
        ++ names_in_programs (members_view keys.now.entries)) }
{
    for (key, _) in keys.iter() {
        names.push(format!(in alloc; "LP.{}", key.as_str())?)?;
    }
    Ok(())
}

/// The names of what is read over, those of programs after the others.
pub(crate) fn ignored_in(
    alloc: Global,
    of: ObjectType,
    members: &Map<String, Json>,
    list: &[Json],
) -> Result<Vec<String>, AllocError>
    ensures { IfOk result (λ names. map string_bytes names.items
        ≡ ignored_in of (members_view members.now.entries) (items_view list.now)) }
{
    let mut names = names_read_over(alloc, of, members)?;
    let keys = other_keys(alloc, list)?;
    put_names(alloc, &mut names, &keys)?;
    Ok(names)
}
