// The tests of columns and rows of the values of a data file.

ghost use Rattle.pm_filing.specs.FileParts.{bad_row, out_of_memory, value};
ghost use Rattle.pm_filing.specs.FileReadings.{ArePassed, HasBadRow, Passes, cols_after, cols_after_all, cols_of_value, fits_sites, named_objective, named_objectives, named_part, named_values};
ghost use Rattle.pm_filing.specs.ReadingViews.{HaveFractions, are_formed_parts, fault_of, is_formed_objective, is_formed_part, objectives_seen, part_seen};
ghost use Rattle.pm_object.specs.State.{ambient_in};
ghost use Rattle.pm_types.specs.Forms.{AreFractions, is_formed};
ghost use Rattle.pm_types.specs.Views.{view_of};
ghost use Rattle.std.specs.List.{list_all};
ghost use Rattle.std.specs.Prelude.{IfErr, IfOk, IsTrue, None, OnOk, Some, map, option_map, ◌≡◌, ◌≢◌};

use crate::fail::FileFail;
use crate::parts::FilePart;
use pm_object::{TakeFail, agrees, have_as_many_sites, require_primitive_rows};
use pm_props::{Columns, ObjectType, PropId};
use pm_types::{Value, are_rows, stated_cols};
use std::alloc::Global;

/// The dimension that a whole number states.
fn ambient_in(v: &Value) -> Option<usize>
    ensures { result ≡ ambient_in (Some (view_of v.now)) }
{
    match v {
        Value::Int(k) if *k >= 0 => Some(*k as usize),
        _ => None,
    }
}

/// The column count, or the dimension, that a value states, if it states one.
fn cols_of_value(p: PropId, v: &Value) -> Option<usize>
    ensures { result ≡ cols_of_value p (view_of v.now) }
{
    if p.row().columns == Columns::Value {
        return ambient_in(v);
    }
    match stated_cols(p, v) {
        0 => None,
        n => Some(n),
    }
}

/// The column count that is known after a value.
fn cols_after(n: Option<usize>, p: PropId, v: &Value) -> Option<usize>
    ensures { result ≡ cols_after n p (view_of v.now) }
{
    match n {
        Some(_) => n,
        None => cols_of_value(p, v),
    }
}

/// The fault of a row under this name.
fn bad_row(alloc: Global, name: &str) -> FileFail
    ensures { fault_of result ≢ out_of_memory → fault_of result ≡ bad_row name.now }
{
    match String::from_str(alloc, name) {
        Ok(name) => FileFail::BadRow { name },
        Err(_) => FileFail::Memory,
    }
}

/// Whether a value of SITE_HEIGHTS has an entry for each row of a value of SITES among the tied parts.
fn fits_sites(of: ObjectType, tied: &[FilePart], p: PropId, v: &Value) -> bool
    ensures { result ≡ fits_sites (named_values of (map part_seen tied.now)) p (view_of v.now) }
{
    for part in tied {
        if !fits_part(of, part, p, v) {
            return false;
        }
    }
    true
}

/// So of one part.
fn fits_part(of: ObjectType, part: &FilePart, p: PropId, v: &Value) -> bool
    ensures { result ≡ fits_sites (named_part of (part_seen part.now)) p (view_of v.now) }
{
    match part {
        FilePart::Value(q, w) => have_as_many_sites(*q, w, p, v),
        FilePart::Programs(_) => true,
    }
}

/// Tests the columns and rows of a value that stands under this name.
fn test_value(
    alloc: Global,
    of: ObjectType,
    tied: &[FilePart],
    n: Option<usize>,
    name: &str,
    p: PropId,
    v: &Value,
) -> Result<(), FileFail>
    requires formed { IsTrue (is_formed p (view_of v.now)) }
    ensures ok { OnOk result (Passes of (named_values of (map part_seen tied.now)) n p (view_of v.now)) }
    ensures entries { OnOk result (AreFractions (view_of v.now)) }
    ensures fault { IfErr result (λ e. fault_of e ≢ out_of_memory →
        (fault_of e ≡ bad_row name.now) × ¬ (Passes of (named_values of (map part_seen tied.now)) n p (view_of v.now))) }
{
    if !agrees(n, p, v) || !fits_sites(of, tied, p, v) || !are_rows(of, p, v) {
        return Err(bad_row(alloc, name));
    }
    match require_primitive_rows(alloc, p, v) {
        Ok(()) => Ok(()),
        Err(TakeFail::Memory) => Err(FileFail::Memory),
        Err(_) => Err(bad_row(alloc, name)),
    }
}

/// Tests an objective, if there is one: the column count that is known after it.
fn test_objective(
    alloc: Global,
    of: ObjectType,
    tied: &[FilePart],
    n: Option<usize>,
    objective: &Option<Value>,
) -> Result<Option<usize>, FileFail>
    requires formed { IsTrue (is_formed_objective (option_map view_of objective.now)) }
    ensures cols { IfOk result (λ m.
        m ≡ cols_after_all n (named_objective (option_map view_of objective.now))) }
    ensures ok { OnOk result (ArePassed of (named_values of (map part_seen tied.now)) n
        (named_objective (option_map view_of objective.now))) }
    ensures entries { OnOk result (HaveFractions (named_objective (option_map view_of objective.now))) }
    ensures fault { IfErr result (λ e. fault_of e ≢ out_of_memory →
        HasBadRow of (named_values of (map part_seen tied.now)) n (named_objective (option_map view_of objective.now)) (fault_of e)) }
{
    let Some(v) = objective else {
        return Ok(n);
    };
    test_value(alloc, of, tied, n, "LP", PropId::LinearObjective, v)?;
    Ok(cols_after(n, PropId::LinearObjective, v))
}

/// Tests the objectives: the column count that is known after them.
fn test_objectives(
    alloc: Global,
    of: ObjectType,
    tied: &[FilePart],
    n: Option<usize>,
    objectives: &[Option<Value>],
) -> Result<Option<usize>, FileFail>
    requires formed { IsTrue (list_all is_formed_objective (objectives_seen objectives.now)) }
    ensures cols { IfOk result (λ m.
        m ≡ cols_after_all n (named_objectives (objectives_seen objectives.now))) }
    ensures ok { OnOk result (ArePassed of (named_values of (map part_seen tied.now)) n
        (named_objectives (objectives_seen objectives.now))) }
    ensures entries { OnOk result (HaveFractions (named_objectives (objectives_seen objectives.now))) }
    ensures fault { IfErr result (λ e. fault_of e ≢ out_of_memory →
        HasBadRow of (named_values of (map part_seen tied.now)) n (named_objectives (objectives_seen objectives.now)) (fault_of e)) }
{
    let mut cols = n;
    for objective in objectives {
        cols = test_objective(alloc, of, tied, cols, objective)?;
    }
    Ok(cols)
}

/// Tests the value of a property: the column count that is known after it.
fn test_property(
    alloc: Global,
    of: ObjectType,
    tied: &[FilePart],
    n: Option<usize>,
    p: PropId,
    v: &Value,
) -> Result<Option<usize>, FileFail>
    requires formed { IsTrue (is_formed p (view_of v.now)) }
    ensures cols { IfOk result (λ m. m ≡ cols_after_all n (named_part of (value p (view_of v.now)))) }
    ensures ok { OnOk result (ArePassed of (named_values of (map part_seen tied.now)) n
        (named_part of (value p (view_of v.now)))) }
    ensures entries { OnOk result (HaveFractions (named_part of (value p (view_of v.now)))) }
    ensures fault { IfErr result (λ e. fault_of e ≢ out_of_memory →
        HasBadRow of (named_values of (map part_seen tied.now)) n (named_part of (value p (view_of v.now))) (fault_of e)) }
{
    test_value(alloc, of, tied, n, p.name_in(of), p, v)?;
    Ok(cols_after(n, p, v))
}

/// Tests a part: the column count that is known after it.
fn test_part(
    alloc: Global,
    of: ObjectType,
    tied: &[FilePart],
    n: Option<usize>,
    part: &FilePart,
) -> Result<Option<usize>, FileFail>
    requires formed { IsTrue (is_formed_part (part_seen part.now)) }
    ensures cols { IfOk result (λ m. m ≡ cols_after_all n (named_part of (part_seen part.now))) }
    ensures ok { OnOk result (ArePassed of (named_values of (map part_seen tied.now)) n
        (named_part of (part_seen part.now))) }
    ensures entries { OnOk result (HaveFractions (named_part of (part_seen part.now))) }
    ensures fault { IfErr result (λ e. fault_of e ≢ out_of_memory →
        HasBadRow of (named_values of (map part_seen tied.now)) n (named_part of (part_seen part.now)) (fault_of e)) }
{
    match part {
        FilePart::Value(p, v) => test_property(alloc, of, tied, n, *p, v),
        FilePart::Programs(objectives) => test_objectives(alloc, of, tied, n, objectives),
    }
}

/// Tests the columns and rows of each part, in order, and heights against the sites of the tied parts.
pub(crate) fn test_parts(
    alloc: Global,
    of: ObjectType,
    tied: &[FilePart],
    parts: &[FilePart],
) -> Result<(), FileFail>
    requires formed { IsTrue (are_formed_parts (map part_seen parts.now)) }
    ensures ok { OnOk result (ArePassed of (named_values of (map part_seen tied.now)) None
        (named_values of (map part_seen parts.now))) }
    ensures entries { OnOk result (HaveFractions (named_values of (map part_seen parts.now))) }
    ensures fault { IfErr result (λ e. fault_of e ≢ out_of_memory →
        HasBadRow of (named_values of (map part_seen tied.now)) None (named_values of (map part_seen parts.now)) (fault_of e)) }
{
    let mut cols = None;
    for part in parts {
        cols = test_part(alloc, of, tied, cols, part)?;
    }
    Ok(())
}
