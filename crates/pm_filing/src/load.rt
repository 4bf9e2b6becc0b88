// Objects from data files.

ghost use Rattle.pm_filing.specs.Filing.{loaded_object, loaded_value, mark_read, name_told, objective_held, property_with_value, read_over, rule_labelled, with_programs};
ghost use Rattle.pm_filing.specs.FileParts.{out_of_memory};
ghost use Rattle.pm_filing.specs.FileReadings.{Reads, Refuses};
ghost use Rattle.pm_files.specs.Files.{SavedFile};
ghost use Rattle.pm_filing.specs.ReadingViews.{fault_of, has_formed_objective, is_formed_objective, marks_seen, matrix_seen};
ghost use Rattle.pm_files.specs.Views.{file_of, program_of};
ghost use Rattle.pm_props.specs.NameWords.{is_name};
ghost use Rattle.pm_object.specs.Formed.{ArePrograms};
ghost use Rattle.pm_object.specs.State.{CanTake, HeldValue, empty_object, is_held, program_refusal, read_at, sites_agree, with_held, with_program};
ghost use Rattle.pm_props.specs.Properties.{has as has_property};
ghost use Rattle.pm_props.specs.declared.property.PropId.TheVariants.{LinearObjective};
ghost use Rattle.pm_props.specs.Sets.{has};
ghost use Rattle.pm_filing.specs.Views.{AllSuit, Suits, value_seen};
ghost use Rattle.pm_filing.specs.Whole.{AgreeInSites, IsWhole, are_of_different, are_of_table, is_mark, is_place, objective_of};
ghost use Rattle.pm_types.specs.Views.{view_of};
ghost use Rattle.std.specs.List.{Contains, list_all};
ghost use Rattle.std.specs.Prelude.{IfErr, IfOk, IfSome, IsTrue, None, OnOk, Some, [], false, flat_map, length, map, option_map, string_bytes, ℕ, ◌++◌, ◌∷◌, ◌<◌, ◌≡◌, ◌≢◌, ◌≤◌};
ghost use Rattle.pm_limits.specs.Limits.{most_rules};

use crate::fail::FileFail;
use crate::read::read_object;
use pm_files::{FileObject, FileProgram};
use pm_fraction::Matrix;
use pm_object::{Excluded, Object, ProgramFail, TakeFail, Why};
use pm_rules::{Book, Rule};
use pm_types::{PropId, PropSet, RuleId, Value};
use std::alloc::{AllocError, Global};

/// The first rule that has this label.
fn rule_labelled(rules: &[Rule], label: &str) -> Option<RuleId>
    requires few { length rules.now ≤ most_rules }
    ensures { result ≡ rule_labelled rules.now label.now }
{
    for (i, rule) in rules.iter().enumerate() {
        if rule.label.as_bytes() == label.as_bytes() {
            return Some(RuleId(i as u16));
        }
    }
    None
}

/// Adds a value, which was given or is stored, to an object whose values suit the same column count.
fn add_value(object: &mut Object, stored: PropSet, p: PropId, v: Value) -> Result<(), AllocError>
    requires suits { (n : ℕ) × Suits object.old.state.of n p (view_of v)
        × ((h : HeldValue) → Contains object.old.state.held h
        → Suits object.old.state.of n h.property h.value) }
    requires missing { is_held p (read_at None object.old.state.held) ≡ false }
    requires table { IsTrue (has_property object.old.state.of p) }
    requires sites { has stored p ≡ false → IsTrue (sites_agree object.old.state.held p (view_of v)) }
    ensures ok { OnOk result (object.new.state
        ≡ with_held object.old.state (loaded_value stored (p, view_of v) ∷ [])) }
{
    if stored.contains(p) {
        object.add_stored(p, v)
    } else {
        object.add_given(p, v)
    }
}

/// Adds values of different properties of the table, which suit one column count, to an object that holds nothing.
fn add_values(
    object: &mut Object,
    stored: PropSet,
    values: Vec<(PropId, Value)>,
) -> Result<(), AllocError>
    requires empty { object.old.state.held ≡ [] }
    requires suit { AllSuit object.old.state.of (map value_seen values.items) }
    requires table { IsTrue (are_of_table object.old.state.of (map value_seen values.items)) }
    requires once { IsTrue (are_of_different (map value_seen values.items)) }
    requires sites { AgreeInSites stored (map value_seen values.items) }
    ensures ok { OnOk result (object.new.state ≡ record object.old.state {
      held = map (loaded_value stored) (map value_seen values.items);
    }) }
{
    for (p, v) in values {
        add_value(object, stored, p, v)?;
    }
    Ok(())
}

/// Excludes the rules that failed for the object, or for a linear program of it, where the book has their labels.
fn mark_rules(
    object: &mut Object,
    book: &Book,
    sub: Option<u8>,
    failed: &[(String, u8)],
) -> Result<(), AllocError>
    requires marks { IsTrue (list_all is_mark (marks_seen failed.now)) }
    ensures ok { OnOk result (object.new.state ≡ record object.old.state {
      excluded = object.old.state.excluded
          ++ flat_map (mark_read book.now sub) (marks_seen failed.now);
    }) }
{
    for (label, k) in failed {
        if let Some(id) = rule_labelled(book.rules(), label.as_str()) {
            object.exclude(Excluded {
                rule: id,
                sub,
                why: Why::Stored(*k),
            })?;
        }
    }
    Ok(())
}

/// Gives the linear program at a place its objective, where the file has one, which it may take.
fn add_objective(object: &mut Object, sub: u8, objective: Option<Matrix>) -> Result<(), AllocError>
    requires place { sub < length object.old.state.programs }
    requires formed { IsTrue (is_formed_objective (option_map matrix_seen objective)) }
    requires taken { IfSome (option_map matrix_seen objective)
        (λ v. CanTake object.old.state (Some sub) LinearObjective v) }
    ensures ok { OnOk result (object.new.state ≡ with_held object.old.state
        (objective_held sub (option_map (λ m. m.rows) objective))) }
{
    let Some(row) = objective else {
        return Ok(());
    };
    match object.take_in(sub, PropId::LinearObjective, Value::Mat(row)) {
        Ok(()) => Ok(()),
        Err(TakeFail::Memory) => Err(AllocError),
        Err(_) => unreachable!(),
    }
}

/// Adds a linear program of a file, with its objective and its marks. The object takes a program of its name, and that
/// takes the objective.
fn add_program(
    alloc: Global,
    object: &mut Object,
    book: &Book,
    program: FileProgram,
) -> Result<(), AllocError>
    requires name { IsTrue (is_name (name_told (program_of program))) }
    requires formed { IsTrue (has_formed_objective program) }
    requires free { program_refusal object.old.state (name_told (program_of program)) ≡ None }
    requires taken { IfSome (option_map matrix_seen program.objective)
        (λ v. CanTake (with_program object.old.state (name_told (program_of program)))
        (Some (length object.old.state.programs)) LinearObjective v) }
    requires marks { IsTrue (list_all is_mark (program_of program).failed) }
    ensures ok { OnOk result (object.new.state
        ≡ with_programs book.now object.old.state (program_of program ∷ [])) }
{
    let FileProgram {
        name,
        objective,
        failed,
    } = program;
    let Some(name) = name else { unreachable!() };
    let sub = match object.add_program(alloc, name.as_str()) {
        Ok(sub) => sub,
        Err(ProgramFail::Memory) => return Err(AllocError),
        Err(_) => unreachable!(),
    };
    add_objective(object, sub, objective)?;
    mark_rules(object, book, Some(sub), &failed)
}

/// Adds the linear programs of a file, in their order, to an object without rounds of which no value stands at their
/// places. Their names are those that programs of it may have behind its own, and the objectives suit one column count
/// with what it holds.
fn add_programs(
    alloc: Global,
    object: &mut Object,
    book: &Book,
    programs: Vec<FileProgram>,
) -> Result<(), AllocError>
    requires names { ArePrograms object.old.state.of
        (object.old.state.programs ++ map name_told (map program_of programs.items)) }
    requires formed { IsTrue (list_all has_formed_objective programs.items) }
    requires suit { AllSuit object.old.state.of (map property_with_value object.old.state.held
        ++ flat_map (λ p. objective_of p.objective) (map program_of programs.items)) }
    requires placed { IsTrue (list_all (λ h. is_place (length object.old.state.programs) h.place)
        object.old.state.held) }
    requires rounds { object.old.state.rounds ≡ [] }
    requires marks { IsTrue (list_all (λ p. list_all is_mark p.failed) (map program_of programs.items)) }
    ensures ok { OnOk result (object.new.state
        ≡ with_programs book.now object.old.state (map program_of programs.items)) }
{
    for program in programs {
        add_program(alloc, object, book, program)?;
    }
    Ok(())
}

/// Puts what a whole file holds into an object that holds nothing: its values, given or stored, its linear programs,
/// the rules that failed, where the book has their labels, and what goes without saying. It answers the names that were
/// read over.
fn put_file(
    alloc: Global,
    object: &mut Object,
    book: &Book,
    file: FileObject,
) -> Result<Vec<String>, AllocError>
    requires empty { object.old.state ≡ empty_object file.of }
    requires whole { IsWhole (file_of file) }
    requires objectives { IsTrue (list_all has_formed_objective file.programs.items) }
    ensures object { OnOk result (object.new.state ≡ loaded_object book.now (file_of file)) }
    ensures names { IfOk result (λ names. map string_bytes names.items ≡ read_over (file_of file)) }
{
    add_values(object, file.stored, file.values)?;
    mark_rules(object, book, None, &file.failed)?;
    add_programs(alloc, object, book, file.programs)?;
    object.settle(alloc)?;
    Ok(file.ignored)
}

/// The object of what a whole file holds: its values, given or stored, its linear programs, the rules that failed,
/// where the book has their labels, and what goes without saying.
fn load_file(
    alloc: Global,
    book: &Book,
    file: FileObject,
) -> Result<(Object, Vec<String>), AllocError>
    requires whole { IsWhole (file_of file) }
    requires objectives { IsTrue (list_all has_formed_objective file.programs.items) }
    ensures object { IfOk result (λ r. r.0.state ≡ loaded_object book.now (file_of file)) }
    ensures names { IfOk result (λ r. map string_bytes r.1.items ≡ read_over (file_of file)) }
{
    let mut object = Object::new(alloc, file.of);
    match put_file(alloc, &mut object, book, file) {
        Ok(names) => Ok((object, names)),
        Err(refused) => {
            drop(object);
            Err(refused)
        }
    }
}

/// The object that is made of the bytes of a data file, and the names that were read over. The errors are those of
/// `read_object`.
pub fn load_object(
    alloc: Global,
    book: &Book,
    bytes: &[u8],
) -> Result<(Object, Vec<String>), FileFail>
    ensures ok { IfOk result (λ r. (f : SavedFile) × Reads bytes.now f
        × (r.0.state ≡ loaded_object book.now f) × (map string_bytes r.1.items ≡ read_over f)) }
    ensures fault { IfErr result (λ e. fault_of e ≢ out_of_memory → Refuses bytes.now (fault_of e)) }
{
    let file = read_object(alloc, bytes)?;
    let loaded = load_file(alloc, book, file)?;
    Ok(loaded)
}
