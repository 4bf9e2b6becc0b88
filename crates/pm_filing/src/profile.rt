// The profile of a data file: which values were stored, which rules failed, and the names of its linear programs.

ghost use Rattle.pm_filing.specs.FileParts.{bad_profile, out_of_memory};
ghost use Rattle.pm_filing.specs.Profiles.{different_read, each_read, evidence_of, full_profile, is_profile_2, mark_among, mark_of, mark_with, marks_in, no_marks, plain_names_from, plain_profile, profile_in, program_name_of, program_names, same_label, stored_by, stored_property};
ghost use Rattle.pm_filing.specs.FileReadings.{any_names_sites, finds_sites, names_sites};
ghost use Rattle.pm_filing.specs.ReadingViews.{all_marks_seen, fault_of, marks_seen, profile_seen};
ghost use Rattle.pm_props.specs.NameWords.{is_name, is_name_byte};
ghost use Rattle.pm_props.specs.Places.{same_property};
ghost use Rattle.pm_props.specs.Sets.{set_of};
ghost use Rattle.serde_json.specs.Find.{get};
ghost use Rattle.serde_json.specs.View.{items_view, view};
ghost use Rattle.std.specs.List.{list_all, list_any};
ghost use Rattle.std.specs.Prelude.{Err, IfErr, IfOk, None, Ok, Some, codes, map, option_map, string_bytes, ◌≡◌, ◌≢◌};
ghost use Rattle.std.specs.Str.{bytes_eq};

use crate::fail::FileFail;
use pm_props::{ObjectType, PropId, PropSet};
use pm_rules::is_label;
use serde_json::Value as Json;
use std::alloc::{AllocError, Global};

/// What the profile of a data file says.
#[derive(Drop)]
pub struct FileProfile {
    /// Which of the values were computed.
    pub stored: PropSet,
    /// The marks of the object.
    pub failed: Vec<(String, u8)>,
    /// The name of each linear program.
    pub names: Vec<String>,
    /// The marks of each linear program.
    pub marks: Vec<Vec<(String, u8)>>,
}

/// Whether the profile is 2.
fn is_profile_2(json: &Json) -> bool
    ensures { result ≡ is_profile_2 (view json.now) }
{
    match json.get("_profile") {
        Some(profile) => profile.as_u64() == Some(2),
        None => false,
    }
}

/// Whether a value is the name of SITES or of SITE_HEIGHTS.
fn names_sites(of: ObjectType, json: &Json) -> bool
    ensures { result ≡ names_sites of (view json.now) }
{
    let Some(name) = json.as_str() else {
        return false;
    };
    match PropId::named_in(of, name) {
        Some(p) => p == PropId::Sites || p == PropId::SiteHeights,
        None => false,
    }
}

/// Whether one of a list is.
fn any_names_sites(of: ObjectType, list: &[Json]) -> bool
    ensures { result ≡ any_names_sites of (items_view list.now) }
{
    for name in list {
        if names_sites(of, name) {
            return true;
        }
    }
    false
}

/// Whether the profile is 2, and `_computed` is an array in which one of these names stands.
pub(crate) fn finds_sites(of: ObjectType, json: &Json) -> bool
    ensures { result ≡ finds_sites of (view json.now) }
{
    if !is_profile_2(json) {
        return false;
    }
    let Some(found) = json.get("_computed") else {
        return false;
    };
    match found.as_array() {
        Some(list) => any_names_sites(of, list),
        None => false,
    }
}

/// The property of a name, where its value was read.
fn stored_property(of: ObjectType, held: PropSet, json: &Json) -> Option<PropId>
    ensures { result ≡ stored_property of held (view json.now) }
{
    match PropId::named_in(of, json.as_str()?) {
        Some(p) if held.contains(p) => Some(p),
        _ => None,
    }
}

/// The properties that a list names, each once.
fn stored_among(of: ObjectType, held: PropSet, list: &[Json]) -> Option<PropSet>
    ensures { result
        ≡ option_map set_of (different_read same_property (stored_property of held) (items_view list.now)) }
{
    let mut stored = PropSet::empty();
    for name in list {
        let Some(p) = stored_property(of, held, name) else {
            return None;
        };
        if stored.contains(p) {
            return None;
        }
        stored = stored.with(p);
    }
    Some(stored)
}

/// The stored properties of a file.
fn stored_of(of: ObjectType, held: PropSet, json: &Json) -> Option<PropSet>
    ensures { result ≡ stored_by of held (get (codes "_computed") (view json.now)) }
{
    let Some(found) = json.get("_computed") else {
        return Some(PropSet::empty());
    };
    match found.as_array() {
        Some(list) => stored_among(of, held, list),
        None => None,
    }
}

/// The number of evidence, from 1 to 5.
fn evidence_of(text: &str) -> Option<u8>
    ensures { result ≡ evidence_of text.now }
{
    if text == "E1" {
        Some(1)
    } else if text == "E2" {
        Some(2)
    } else if text == "E3" {
        Some(3)
    } else if text == "E4" {
        Some(4)
    } else if text == "E5" {
        Some(5)
    } else {
        None
    }
}

/// A mark of a label of a rule book.
fn mark_with<'a>(label: &'a str, evidence: Option<u8>) -> Option<(&'a str, u8)>
    ensures { option_map (λ m. (m.0.now, m.1)) result ≡ mark_with label.now evidence }
{
    match evidence {
        Some(k) => {
            if is_label(label.as_bytes()) {
                Some((label, k))
            } else {
                None
            }
        }
        None => None,
    }
}

/// A mark of two values, a label and a text of evidence.
#[tactic(auto, using(crate::proofs::MarkPairs::no_pair))]
fn mark_among(list: &[Json]) -> Option<(&str, u8)>
    ensures { option_map (λ m. (m.0.now, m.1)) result ≡ mark_among (items_view list.now) }
{
    if list.len() != 2 {
        return None;
    }
    let Some(label) = list[0].as_str() else {
        return None;
    };
    let Some(text) = list[1].as_str() else {
        return None;
    };
    mark_with(label, evidence_of(text))
}

/// A mark, `[LABEL,"Ek"]`.
fn mark_of(json: &Json) -> Option<(&str, u8)>
    ensures { option_map (λ m. (m.0.now, m.1)) result ≡ mark_of (view json.now) }
{
    match json.as_array() {
        Some(list) => mark_among(list),
        None => None,
    }
}

/// Whether one of the marks has this label.
pub fn has_label(marks: &[(String, u8)], label: &str) -> bool
    ensures { result ≡ list_any (λ m. bytes_eq m.0 label.now) (marks_seen marks.now) }
{
    for mark in marks {
        if mark.0.as_str() == label {
            return true;
        }
    }
    false
}

/// A key of the profile that is not right.
fn bad_profile(alloc: Global, key: &str) -> FileFail
    ensures { fault_of result ≢ out_of_memory → fault_of result ≡ bad_profile key.now }
{
    match String::from_str(alloc, key) {
        Ok(key) => FileFail::BadProfile { key },
        Err(_) => FileFail::Memory,
    }
}

/// The marks of a list, each of another label.
fn marks_among(alloc: Global, list: &[Json]) -> Result<Vec<(String, u8)>, FileFail>
    ensures ok { IfOk result (λ marks. different_read same_label mark_of (items_view list.now)
        ≡ Some (marks_seen marks.items)) }
    ensures fault { IfErr result (λ e. fault_of e ≢ out_of_memory →
        (fault_of e ≡ bad_profile (codes "_excluded")) × (different_read same_label mark_of (items_view list.now) ≡ None)) }
{
    let mut marks = Vec::new(alloc);
    for item in list {
        let Some(mark) = mark_of(item) else {
            return Err(bad_profile(alloc, "_excluded"));
        };
        if has_label(&marks, mark.0) {
            return Err(bad_profile(alloc, "_excluded"));
        }
        marks.push((String::from_str(alloc, mark.0)?, mark.1))?;
    }
    Ok(marks)
}

/// The marks of an object or a linear program.
fn marks_in(alloc: Global, json: &Json) -> Result<Vec<(String, u8)>, FileFail>
    ensures ok { IfOk result (λ marks. marks_in (view json.now) ≡ Some (marks_seen marks.items)) }
    ensures fault { IfErr result (λ e. fault_of e ≢ out_of_memory →
        (fault_of e ≡ bad_profile (codes "_excluded")) × (marks_in (view json.now) ≡ None)) }
{
    let Some(found) = json.get("_excluded") else {
        return Ok(Vec::new(alloc));
    };
    match found.as_array() {
        Some(list) => marks_among(alloc, list),
        None => Err(bad_profile(alloc, "_excluded")),
    }
}

/// The marks of each linear program.
fn each_marks(alloc: Global, list: &[Json]) -> Result<Vec<Vec<(String, u8)>>, FileFail>
    ensures ok { IfOk result (λ all. each_read marks_in (items_view list.now)
        ≡ Some (all_marks_seen all.items)) }
    ensures fault { IfErr result (λ e. fault_of e ≢ out_of_memory →
        (fault_of e ≡ bad_profile (codes "_excluded")) × (each_read marks_in (items_view list.now) ≡ None)) }
{
    let mut all = Vec::new(alloc);
    for program in list {
        let marks = marks_in(alloc, program)?;
        all.push(marks)?;
    }
    Ok(all)
}

/// Whether this is a letter, a digit or `_`.
fn is_name_byte(b: u8) -> bool
    ensures { result ≡ is_name_byte b }
{
    b.is_ascii_alphanumeric() || b == b'_'
}

/// Whether this is a letter, then letters, digits or `_`, of at most 32 bytes.
fn is_name(name: &[u8]) -> bool
    ensures { result ≡ is_name name.now }
{
    match name {
        [] => false,
        [first, rest @ ..] => {
            first.is_ascii_alphabetic() && are_name_bytes(rest) && name.len() <= 32
        }
    }
}

/// Whether these are letters, digits or `_`.
fn are_name_bytes(bytes: &[u8]) -> bool
    ensures { result ≡ list_all is_name_byte bytes.now }
{
    for b in bytes {
        if !is_name_byte(*b) {
            return false;
        }
    }
    true
}

/// The name of a linear program, where it has one.
fn program_name_of(json: &Json) -> Option<&str>
    ensures { option_map (λ name. name.now) result ≡ program_name_of (view json.now) }
{
    let Some(found) = json.get("_name") else {
        return None;
    };
    match found.as_str() {
        Some(name) if is_name(name.as_bytes()) => Some(name),
        _ => None,
    }
}

/// Whether one of the names is this.
fn has_name(names: &[String], name: &str) -> bool
    ensures { result ≡ list_any (λ n. bytes_eq n name.now) (map string_bytes names.now) }
{
    for other in names {
        if other.as_str() == name {
            return true;
        }
    }
    false
}

/// The names of linear programs, each another.
fn program_names(alloc: Global, list: &[Json]) -> Result<Vec<String>, FileFail>
    ensures ok { IfOk result (λ names. program_names (items_view list.now)
        ≡ Some (map string_bytes names.items)) }
    ensures fault { IfErr result (λ e. fault_of e ≢ out_of_memory →
        (fault_of e ≡ bad_profile (codes "_name")) × (program_names (items_view list.now) ≡ None)) }
{
    let mut names = Vec::new(alloc);
    for program in list {
        let Some(name) = program_name_of(program) else {
            return Err(bad_profile(alloc, "_name"));
        };
        if has_name(&names, name) {
            return Err(bad_profile(alloc, "_name"));
        }
        names.push(String::from_str(alloc, name)?)?;
    }
    Ok(names)
}

/// `lp0`, `lp1` and so on.
fn plain_names(alloc: Global, list: &[Json]) -> Result<Vec<String>, AllocError>
    ensures { IfOk result (λ names. map string_bytes names.items
        ≡ plain_names_from 0 (items_view list.now)) }
{
    let mut names = Vec::new(alloc);
    for _program in list {
        let k = names.len();
        names.push(format!(in alloc; "lp{}", k)?)?;
    }
    Ok(names)
}

/// No marks for each linear program.
fn no_marks(alloc: Global, list: &[Json]) -> Result<Vec<Vec<(String, u8)>>, AllocError>
    ensures { IfOk result (λ all. all_marks_seen all.items ≡ no_marks (items_view list.now)) }
{
    let mut all = Vec::new(alloc);
    for _program in list {
        all.push(Vec::new(alloc))?;
    }
    Ok(all)
}

/// The profile of a file of profile 1.
fn plain_profile(alloc: Global, list: &[Json]) -> Result<FileProfile, AllocError>
    ensures { IfOk result (λ p. profile_seen p ≡ plain_profile (items_view list.now)) }
{
    Ok(FileProfile {
        stored: PropSet::empty(),
        failed: Vec::new(alloc),
        names: plain_names(alloc, list)?,
        marks: no_marks(alloc, list)?,
    })
}

/// The profile of a file of profile 2.
fn full_profile(
    alloc: Global,
    of: ObjectType,
    held: PropSet,
    json: &Json,
    list: &[Json],
) -> Result<FileProfile, FileFail>
    ensures ok { IfOk result (λ p. full_profile of held (view json.now) (items_view list.now)
        ≡ Ok (profile_seen p)) }
    ensures fault { IfErr result (λ e. fault_of e ≢ out_of_memory
        → full_profile of held (view json.now) (items_view list.now) ≡ Err (fault_of e)) }
{
    let Some(stored) = stored_of(of, held, json) else {
        return Err(bad_profile(alloc, "_computed"));
    };
    let failed = marks_in(alloc, json)?;
    let marks = each_marks(alloc, list)?;
    let names = program_names(alloc, list)?;
    Ok(FileProfile {
        stored,
        failed,
        names,
        marks,
    })
}

/// The profile of a file that has values of these properties and these linear programs.
pub(crate) fn profile_in(
    alloc: Global,
    of: ObjectType,
    held: PropSet,
    json: &Json,
    list: &[Json],
) -> Result<FileProfile, FileFail>
    ensures ok { IfOk result (λ p. profile_in of held (view json.now) (items_view list.now)
        ≡ Ok (profile_seen p)) }
    ensures fault { IfErr result (λ e. fault_of e ≢ out_of_memory
        → profile_in of held (view json.now) (items_view list.now) ≡ Err (fault_of e)) }
{
    if is_profile_2(json) {
        return full_profile(alloc, of, held, json, list);
    }
    Ok(plain_profile(alloc, list)?)
}
