// The object of a data file, of its parts and its profile.

ghost use Rattle.pm_filing.specs.FileParts.{ignored_in, out_of_memory, value};
ghost use Rattle.pm_filing.specs.Profiles.{file_in, members_of, names_held, objectives_in, programs_in, programs_with, values_in};
ghost use Rattle.pm_filing.specs.ReadingViews.{all_marks_seen, are_formed_parts, are_formed_values, fault_of, has_formed_objective, is_formed_objective, matrix_seen, objectives_seen, part_seen};
ghost use Rattle.pm_files.specs.Views.{file_of, program_of};
ghost use Rattle.pm_types.specs.Forms.{is_formed, rows_in};
ghost use Rattle.pm_props.specs.declared.property.PropId.TheVariants.{LinearObjective};
ghost use Rattle.pm_types.specs.Views.{view_of};
ghost use Rattle.serde_json.specs.View.{items_view, view};
ghost use Rattle.std.specs.List.{list_all};
ghost use Rattle.std.specs.Prelude.{Err, IfErr, IfOk, IsTrue, Ok, map, option_map, string_bytes, ◌≡◌, ◌≢◌};

use crate::fail::FileFail;
use crate::ignored::ignored_in;
use crate::parts::{FilePart, programs_in};
use crate::profile::profile_in;
use pm_files::{FileObject, FileProgram};
use pm_fraction::Matrix;
use pm_props::{ObjectType, PropId, PropSet};
use pm_types::Value;
use serde_json::{Map, Value as Json};
use std::alloc::{AllocError, Global};

/// The properties whose values were read.
fn names_held(parts: &[FilePart]) -> PropSet
    ensures { result ≡ names_held (map part_seen parts.now) }
{
    let mut held = PropSet::empty();
    for part in parts {
        if let FilePart::Value(p, _) = part {
            held = held.with(*p);
        }
    }
    held
}

/// What is read over of the top and of its linear programs.
fn ignored_at(
    alloc: Global,
    of: ObjectType,
    json: &Json,
    list: &[Json],
) -> Result<Vec<String>, AllocError>
    ensures { IfOk result (λ names. map string_bytes names.items
        ≡ ignored_in of (members_of (view json.now)) (items_view list.now)) }
{
    match json.as_object() {
        Some(members) => ignored_in(alloc, of, members, list),
        None => ignored_in(alloc, of, &Map::new(alloc), list),
    }
}

/// The values of an object, and the objectives of its linear programs.
#[derive(Drop)]
pub struct Sorted {
    /// The values.
    pub values: Vec<(PropId, Value)>,
    /// The objectives.
    pub objectives: Vec<Option<Value>>,
}

/// The values and the objectives, apart.
fn sort_parts(alloc: Global, parts: Vec<FilePart>) -> Result<Sorted, AllocError>
    ensures values { IfOk result (λ s. map (λ v. (v.0, view_of v.1)) s.values.items
        ≡ values_in (map part_seen parts.items)) }
    ensures objectives { IfOk result (λ s. objectives_seen s.objectives.items
        ≡ objectives_in (map part_seen parts.items)) }
{
    let mut values = Vec::new(alloc);
    let mut objectives = Vec::new(alloc);
    for part in parts {
        match part {
            FilePart::Value(p, v) => values.push((p, v))?,
            FilePart::Programs(mut more) => objectives.append(&mut more)?,
        }
    }
    Ok(Sorted { values, objectives })
}

/// The matrix of an objective.
fn objective_matrix(objective: Option<Value>) -> Option<Matrix>
    requires formed { IsTrue (is_formed_objective (option_map view_of objective)) }
    ensures rows { option_map (λ m. m.rows) result ≡ option_map rows_in (option_map view_of objective) }
    ensures formed { IsTrue (is_formed_objective (option_map matrix_seen result)) }
{
    match objective {
        Some(Value::Mat(m)) => Some(m),
        _ => None,
    }
}

/// Each linear program with its objective, its name and its marks.
fn programs_with(
    alloc: Global,
    objectives: Vec<Option<Value>>,
    names: Vec<String>,
    marks: Vec<Vec<(String, u8)>>,
) -> Result<Vec<FileProgram>, AllocError>
    requires formed { IsTrue (list_all is_formed_objective (objectives_seen objectives.items)) }
    ensures formed { IfOk result (λ programs. IsTrue (list_all has_formed_objective programs.items)) }
    ensures made { IfOk result (λ programs.
        map program_of programs.items ≡ programs_with (objectives_seen objectives.items)
        (map string_bytes names.items) (all_marks_seen marks.items)) }
{
    let mut programs = Vec::new(alloc);
    let mut names = names.into_iter();
    let mut marks = marks.into_iter();
    for objective in objectives {
        let Some(name) = names.next() else {
            drop(objective);
            return Ok(programs);
        };
        let Some(failed) = marks.next() else {
            drop(objective);
            return Ok(programs);
        };
        programs.push(FileProgram {
            name: Some(name),
            objective: objective_matrix(objective),
            failed,
        })?;
    }
    Ok(programs)
}

/// The object of the parts that were read, with its profile.
pub(crate) fn file_in(
    alloc: Global,
    of: ObjectType,
    json: &Json,
    parts: Vec<FilePart>,
) -> Result<FileObject, FileFail>
    requires formed { IsTrue (are_formed_parts (map part_seen parts.items)) }
    ensures ok { IfOk result (λ f. file_in of (view json.now) (map part_seen parts.items) ≡ Ok (file_of f)) }
    ensures formed { IfOk result (λ f. IsTrue (are_formed_values (file_of f).values)) }
    ensures objectives { IfOk result (λ f. IsTrue (list_all has_formed_objective f.programs.items)) }
    ensures fault { IfErr result (λ e. fault_of e ≢ out_of_memory
        → file_in of (view json.now) (map part_seen parts.items) ≡ Err (fault_of e)) }
{
    let list = programs_in(of, json);
    let profile = profile_in(alloc, of, names_held(&parts), json, list)?;
    let ignored = ignored_at(alloc, of, json, list)?;
    let sorted = sort_parts(alloc, parts)?;
    Ok(FileObject {
        of,
        values: sorted.values,
        stored: profile.stored,
        failed: profile.failed,
        programs: programs_with(alloc, sorted.objectives, profile.names, profile.marks)?,
        ignored,
    })
}
