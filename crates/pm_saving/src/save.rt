// Data files of objects.

ghost use Rattle.pm_filing.specs.Filing.{failure_of, found_names, is_found, is_own_found, mark_written, marks_written, objective_rows, own, property_with_value, saved_file, saved_program, saved_programs, with_mark};
ghost use Rattle.pm_filing.specs.FileReadings.{Reads};
ghost use Rattle.pm_filing.specs.Whole.{IsLoadedAgain};
ghost use Rattle.pm_files.specs.Files.{SavedFile, file_bytes};
ghost use Rattle.pm_filing.specs.ReadingViews.{marks_seen};
ghost use Rattle.pm_files.specs.Views.{file_of, program_of};
ghost use Rattle.pm_object.specs.State.{read_at, value_of};
ghost use Rattle.pm_props.specs.declared.property.PropId.TheVariants.{LinearObjective};
ghost use Rattle.pm_object.specs.Views.{held_seen};
ghost use Rattle.pm_filing.specs.Views.{value_seen};
ghost use Rattle.std.specs.Prelude.{IfOk, IfSome, OnOk, Some, fold, length, map, option_map, slice_get, ◌<◌, ◌≡◌, ◌≤◌};
ghost use Rattle.pm_limits.specs.Limits.{most_file_bytes};

use pm_files::{FileObject, FileProgram, object_bytes};
use pm_filing::has_label;
use pm_fraction::Matrix;
use pm_object::{Excluded, Held, Object, Origin, Why, are_same};
use pm_rules::Book;
use pm_types::{PropId, PropSet, Value};
use std::alloc::{AllocError, Global};

/// Copies of the values of the object itself.
fn own_values(alloc: Global, held: &[Held]) -> Result<Vec<(PropId, Value)>, AllocError>
    ensures { IfOk result (λ values. map value_seen values.items
        ≡ map property_with_value (own (map held_seen held.now))) }
{
    let mut values = Vec::new(alloc);
    for h in held {
        if h.place.is_none() {
            values.push((h.id, h.value.copy(alloc)?))?;
        }
    }
    Ok(values)
}

/// Whether a rule computed the value, in this run or an earlier one.
fn is_found(origin: Origin) -> bool
    ensures { result ≡ is_found origin }
{
    match origin {
        Origin::Given => false,
        Origin::Stored | Origin::Computed => true,
    }
}

/// Whether it is a value of the object itself that a rule computed.
fn is_own_found(h: &Held) -> bool
    ensures { result ≡ is_own_found (held_seen h.now) }
{
    h.place.is_none() && is_found(h.origin)
}

/// The names of the values of the object itself that rules computed.
fn found_names(held: &[Held]) -> PropSet
    ensures { result ≡ found_names (map held_seen held.now) }
{
    let mut names = PropSet::empty();
    for h in held {
        if is_own_found(h) {
            names = names.with(h.id);
        }
    }
    names
}

/// The number of the evidence of a failure.
fn failure_of(why: &Why) -> Option<u8>
    ensures { result ≡ failure_of why.now }
{
    match why {
        Why::Failed(evidence) => Some(evidence.number()),
        Why::False(_) => None,
        Why::Stored(k) => Some(*k),
    }
}

/// Puts the mark of a rule that failed for the object itself, or for the linear program at a place, behind the others,
/// unless one has its label.
fn push_mark(
    alloc: Global,
    failed: &mut Vec<(String, u8)>,
    book: &Book,
    sub: Option<u8>,
    e: &Excluded,
) -> Result<(), AllocError>
    ensures { OnOk result (marks_seen failed.new.items
        ≡ fold with_mark (marks_seen failed.old.items) (mark_written book.now sub e.now)) }
{
    if !are_same(e.sub, sub) {
        return Ok(());
    }
    let Some(k) = failure_of(&e.why) else {
        return Ok(());
    };
    let Some(rule) = book.rule(e.rule) else {
        return Ok(());
    };
    if has_label(failed, rule.label.as_str()) {
        return Ok(());
    }
    let label = String::from_str(alloc, rule.label.as_str())?;
    failed.push((label, k))?;
    Ok(())
}

/// The marks of rules that failed for the object itself, or for the linear program at a place, each of another label.
fn marks_of(
    alloc: Global,
    book: &Book,
    sub: Option<u8>,
    excluded: &[Excluded],
) -> Result<Vec<(String, u8)>, AllocError>
    ensures { IfOk result (λ failed. marks_seen failed.items ≡ marks_written book.now sub excluded.now) }
{
    let mut failed = Vec::new(alloc);
    for e in excluded {
        push_mark(alloc, &mut failed, book, sub, e)?;
    }
    Ok(failed)
}

/// The objective of the linear program at a place, where it holds one.
fn objective_of(alloc: Global, object: &Object, sub: u8) -> Result<Option<Matrix>, AllocError>
    ensures { IfOk result (λ objective. option_map (λ m. m.rows) objective
        ≡ objective_rows (value_of LinearObjective (read_at (Some sub) object.now.state.held))) }
{
    match object.lookup(Some(sub), PropId::LinearObjective) {
        Some(Value::Mat(row)) => Ok(Some(row.copy(alloc)?)),
        _ => Ok(None),
    }
}

/// What a file holds of the linear program at a place: its name, its objective, and the rules of the book that failed
/// for it.
fn file_program(
    alloc: Global,
    book: &Book,
    object: &Object,
    sub: u8,
) -> Result<FileProgram, AllocError>
    requires { sub < length object.now.state.programs }
    ensures { IfOk result (λ p. IfSome (slice_get object.now.state.programs sub) (λ name.
        program_of p ≡ saved_program book.now object.now.state sub name)) }
{
    Ok(FileProgram {
        name: Some(String::from_str(alloc, object.program_name(sub))?),
        objective: objective_of(alloc, object, sub)?,
        failed: marks_of(alloc, book, Some(sub), object.excluded())?,
    })
}

/// What a file holds of each linear program of an object.
fn file_programs(
    alloc: Global,
    book: &Book,
    object: &Object,
) -> Result<Vec<FileProgram>, AllocError>
    ensures { IfOk result (λ programs. map program_of programs.items
        ≡ saved_programs book.now object.now.state 0 object.now.state.programs) }
{
    let mut programs = Vec::new(alloc);
    for sub in 0..object.programs() {
        programs.push(file_program(alloc, book, object, sub)?)?;
    }
    Ok(programs)
}

/// What a file holds of an object: its values, which of them rules computed, the rules of the book that failed, and
/// its linear programs.
fn file_object(alloc: Global, book: &Book, object: &Object) -> Result<FileObject, AllocError>
    ensures { IfOk result (λ f. file_of f ≡ saved_file book.now object.now.state) }
{
    Ok(FileObject {
        of: object.of(),
        values: own_values(alloc, object.held())?,
        stored: found_names(object.held()),
        failed: marks_of(alloc, book, None, object.excluded())?,
        programs: file_programs(alloc, book, object)?,
        ignored: Vec::new(alloc),
    })
}

/// The bytes of the data file of an object. Where they are not too many, loading them gives what the object holds
/// again, and its marks; and saving what was read gives the same bytes. So does saving the object that is loaded of
/// them, where settling adds nothing to it and the book has all labels (`law_saved_again` of `pm_laws_texts`).
pub fn save_object(alloc: Global, book: &Book, object: &Object) -> Result<Vec<u8>, AllocError>
    ensures file { IfOk result (λ bytes. bytes.items ≡ file_bytes (saved_file book.now object.now.state)) }
    ensures again { IfOk result (λ bytes. length bytes.items ≤ most_file_bytes →
        (f : SavedFile) × Reads bytes.items f × IsLoadedAgain book.now object.now.state f × (file_bytes f ≡ bytes.items)) }
{
    // Its values have their forms, and the rules have different labels.
    let _held = object.held();
    let _rules = book.rules();
    let file = file_object(alloc, book, object)?;
    object_bytes(alloc, &file)
}
