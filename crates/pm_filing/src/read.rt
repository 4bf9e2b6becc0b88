// Data files from bytes.

ghost use Rattle.pm_filing.specs.FileParts.{data_in, not_json, out_of_memory};
ghost use Rattle.pm_filing.specs.FileReadings.{ArePassedIn, HasBadRowIn, Reads, Refuses, named_values, seen_in};
ghost use Rattle.pm_filing.specs.ReadingViews.{HaveFractions, are_formed_parts, are_formed_values, fault_of, has_formed_objective, part_seen};
ghost use Rattle.pm_filing.specs.Whole.{IsWhole};
ghost use Rattle.pm_files.specs.Views.{file_of};
ghost use Rattle.serde_json.specs.Read.{read};
ghost use Rattle.serde_json.specs.View.{view};
ghost use Rattle.std.specs.List.{list_all};
ghost use Rattle.std.specs.Prelude.{Err, IfErr, IfOk, IsTrue, None, Ok, OnOk, Some, map, ◌≡◌, ◌≢◌};

use crate::assembly::file_in;
use crate::fail::FileFail;
use crate::parts::{FilePart, read_parts, read_type};
use crate::profile::finds_sites;
use crate::tests_of_parts::test_parts;
use pm_files::FileObject;
use pm_limits::MOST_FILE_BYTES;
use pm_props::ObjectType;
use serde_json::Value as Json;
use std::alloc::Global;
use std::str;

/// The JSON of a text.
fn read_json(alloc: Global, text: &str) -> Result<Json, FileFail>
    ensures ok { IfOk result (λ json. read text.now ≡ Some (view json)) }
    ensures fault { IfErr result (λ e. fault_of e ≢ out_of_memory
        → (fault_of e ≡ not_json) × (read text.now ≡ None)) }
{
    match Json::from_str(alloc, text) {
        Ok(json) => Ok(json),
        Err(e) => {
            if e.is_memory() {
                Err(FileFail::Memory)
            } else {
                Err(FileFail::NotJson)
            }
        }
    }
}

/// The JSON of a file.
fn read_data(alloc: Global, bytes: &[u8]) -> Result<Json, FileFail>
    ensures ok { IfOk result (λ json. data_in bytes.now ≡ Ok (view json)) }
    ensures fault { IfErr result (λ e. fault_of e ≢ out_of_memory → data_in bytes.now ≡ Err (fault_of e)) }
{
    if bytes.len() > MOST_FILE_BYTES {
        return Err(FileFail::Limit);
    }
    let Ok(text) = str::from_utf8(bytes) else {
        return Err(FileFail::NotJson);
    };
    read_json(alloc, text)
}

/// The type and the parts of a file.
fn read_seen(alloc: Global, json: &Json) -> Result<(ObjectType, Vec<FilePart>), FileFail>
    ensures ok { IfOk result (λ s. seen_in (view json.now)
        ≡ Ok (record { of = s.0; top = view json.now; parts = map part_seen s.1.items })) }
    ensures formed { IfOk result (λ s. IsTrue (are_formed_parts (map part_seen s.1.items))) }
    ensures fault { IfErr result (λ e. fault_of e ≢ out_of_memory
        → seen_in (view json.now) ≡ Err (fault_of e)) }
{
    let Some(members) = json.as_object() else {
        return Err(FileFail::NoType);
    };
    let of = read_type(json)?;
    let parts = read_parts(alloc, of, members)?;
    Ok((of, parts))
}

/// Tests the columns and rows of all parts, and heights against sites unless rules found one of these.
fn test_all(alloc: Global, of: ObjectType, json: &Json, parts: &[FilePart]) -> Result<(), FileFail>
    requires formed { IsTrue (are_formed_parts (map part_seen parts.now)) }
    ensures ok { OnOk result
        (ArePassedIn (record { of = of; top = view json.now; parts = map part_seen parts.now })) }
    ensures entries { OnOk result (HaveFractions (named_values of (map part_seen parts.now))) }
    ensures fault { IfErr result (λ e. fault_of e ≢ out_of_memory →
        HasBadRowIn (record { of = of; top = view json.now; parts = map part_seen parts.now }) (fault_of e)) }
{
    if finds_sites(of, json) {
        test_parts(alloc, of, &[], parts)
    } else {
        test_parts(alloc, of, parts, parts)
    }
}

/// The object of a data file, of profile 1 or 2. `Limit`, `NotJson`, `NoType` and `UnknownType` come first, in this
/// order;
/// then `BadProperty` for the first key in byte order whose value has a fault; then `BadRow` for the first whose
/// columns differ from those before, or heights from sites in number, or of which a row can be no row of its
/// property; then `BadProfile`.
pub fn read_object(alloc: Global, bytes: &[u8]) -> Result<FileObject, FileFail>
    ensures reads { IfOk result (λ f. Reads bytes.now (file_of f)) }
    ensures formed { IfOk result (λ f. IsTrue (are_formed_values (file_of f).values)) }
    ensures whole { IfOk result (λ f. IsWhole (file_of f)) }
    ensures objectives { IfOk result (λ f. IsTrue (list_all has_formed_objective f.programs.items)) }
    ensures refuses { IfErr result (λ e. fault_of e ≢ out_of_memory → Refuses bytes.now (fault_of e)) }
{
    let json = read_data(alloc, bytes)?;
    let (of, parts) = read_seen(alloc, &json)?;
    test_all(alloc, of, &json, &parts)?;
    file_in(alloc, of, &json, parts)
}
