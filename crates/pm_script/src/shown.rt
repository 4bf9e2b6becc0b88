// The lines of replies that tell what an object holds, and of evidence.

ghost use Rattle.pm_files.specs.EvidenceJson.{evidence_text};
ghost use Rattle.pm_geom.specs.Evidence.{evidence_number};
ghost use Rattle.pm_script.specs.Replies.{evidence_line, evidence_shown, held_line, held_lines, lists_held, name_shown, names_seen, origin_text, program_lines, program_seen, reply_text, tells_evidence, word_of_type};
ghost use Rattle.std.specs.Prelude.{IfOk, OnOk, codes, decimal, false, flat_map, map, string_bytes, ◌++◌, ◌≡◌};

use crate::chains::{push_false, push_label, push_place};
use crate::names::Names;
use pm_files::evidence_text;
use pm_geom::Evidence;
use pm_object::{Excluded, Origin, Why};
use pm_types::{ObjectType, PropId};
use std::alloc::{AllocError, Global};
use std::fmt::Write;

/// What a linear program of an object holds: each property, and how its value came to be held.
#[derive(Drop)]
pub struct ProgramHeld {
    pub name: String,
    pub held: Vec<(PropId, Origin)>,
}

// The word of a type, as `new` reads it.
fn type_word(of: ObjectType) -> &'static str
    ensures { result.now ≡ word_of_type of }
{
    match of {
        ObjectType::Polytope => "Polytope",
        ObjectType::Cone => "Cone",
        ObjectType::Fan => "Fan",
    }
}

/// The name of a property as it is asked of an object of the type, or of a linear program.
pub fn name_shown(of: ObjectType, prop: PropId) -> &'static str
    ensures { result.now ≡ name_shown of prop }
{
    match prop.row().first_name.strip_prefix("LP.") {
        Some(name) => name,
        None => prop.name_in(of),
    }
}

/// The line of an origin.
pub fn origin_line(origin: Origin) -> &'static str
    ensures { result.now ≡ origin_text origin ++ codes "\n" }
{
    match origin {
        Origin::Given => "given\n",
        Origin::Stored => "stored\n",
        Origin::Computed => "computed\n",
    }
}

// Writes the line of a property that is held.
fn push_held_line(
    text: &mut String,
    of: ObjectType,
    held: (PropId, Origin),
) -> Result<(), AllocError>
    ensures { OnOk result (string_bytes text.new ≡ string_bytes text.old ++ held_line of held) }
{
    text.push_str(name_shown(of, held.0))?;
    text.push_str(" ")?;
    text.push_str(origin_line(held.1))
}

// Writes a line for each property that is held.
fn push_each_held(
    text: &mut String,
    of: ObjectType,
    held: &[(PropId, Origin)],
) -> Result<(), AllocError>
    ensures { OnOk result (string_bytes text.new
        ≡ string_bytes text.old ++ flat_map (held_line of) held.now) }
{
    for one in held {
        push_held_line(text, of, *one)?;
    }
    Ok(())
}

// Writes how many properties are held, and a line for each.
fn push_held(text: &mut String, of: ObjectType, held: &[(PropId, Origin)]) -> Result<(), AllocError>
    ensures { OnOk result (string_bytes text.new ≡ string_bytes text.old ++ held_lines of held.now) }
{
    let count = held.len();
    write!(text, " {count}\n")?;
    push_each_held(text, of, held)
}

// Writes the lines of a linear program.
fn push_program(text: &mut String, of: ObjectType, program: &ProgramHeld) -> Result<(), AllocError>
    ensures { OnOk result (string_bytes text.new
        ≡ string_bytes text.old ++ program_lines of (program_seen program.now)) }
{
    text.push_str("program: ")?;
    text.push_str(program.name.as_str())?;
    push_held(text, of, &program.held)
}

// Writes the lines of each linear program.
fn push_programs(
    text: &mut String,
    of: ObjectType,
    programs: &[ProgramHeld],
) -> Result<(), AllocError>
    ensures { OnOk result (string_bytes text.new
        ≡ string_bytes text.old ++ flat_map (program_lines of) (map program_seen programs.now)) }
{
    for program in programs {
        push_program(text, of, program)?;
    }
    Ok(())
}

/// The lines of what an object holds, and of what its linear programs do.
pub fn object_lines(
    alloc: Global,
    of: ObjectType,
    held: &[(PropId, Origin)],
    programs: &[ProgramHeld],
) -> Result<String, AllocError>
    ensures { IfOk result (λ t. string_bytes t
        ≡ reply_text false (lists_held of held.now (map program_seen programs.now))) }
{
    let mut text = String::from_str(alloc, "object ")?;
    text.push_str(type_word(of))?;
    push_held(&mut text, of, held)?;
    push_programs(&mut text, of, programs)?;
    Ok(text)
}

// Writes evidence with its number.
fn push_whole(alloc: Global, text: &mut String, e: &Evidence) -> Result<(), AllocError>
    ensures { OnOk result (string_bytes text.new ≡ string_bytes text.old ++ codes "E"
        ++ decimal (evidence_number e.now) ++ codes " " ++ evidence_text e.now) }
{
    let number = e.number();
    write!(text, "E{number} ")?;
    text.push_str(evidence_text(alloc, e)?.as_str())
}

// Writes why a rule is barred, with the evidence whole.
fn push_shown(alloc: Global, text: &mut String, why: &Why) -> Result<(), AllocError>
    ensures { OnOk result (string_bytes text.new ≡ string_bytes text.old ++ evidence_shown why.now) }
{
    match why {
        Why::Failed(evidence) => push_whole(alloc, text, evidence),
        Why::False(p) => push_false(text, *p),
        Why::Stored(k) => write!(text, "stored E{}", *k),
    }
}

// Writes the line of evidence.
fn push_evidence_line(
    alloc: Global,
    text: &mut String,
    names: &Names,
    e: &Excluded,
) -> Result<(), AllocError>
    ensures { OnOk result (string_bytes text.new
        ≡ string_bytes text.old ++ evidence_line (names_seen names.now) e.now) }
{
    text.push_str("evidence ")?;
    push_label(text, names, e.rule)?;
    push_place(text, names, e.sub)?;
    text.push_str(" ")?;
    push_shown(alloc, text, &e.why)?;
    text.push_str("\n")
}

// Writes a line for each evidence.
fn push_evidence(
    alloc: Global,
    text: &mut String,
    names: &Names,
    excluded: &[Excluded],
) -> Result<(), AllocError>
    ensures { OnOk result (string_bytes text.new
        ≡ string_bytes text.old ++ flat_map (evidence_line (names_seen names.now)) excluded.now) }
{
    for e in excluded {
        push_evidence_line(alloc, text, names, e)?;
    }
    Ok(())
}

/// How many exclusions there are, and the evidence of each.
pub fn evidence_lines(
    alloc: Global,
    names: &Names,
    excluded: &[Excluded],
) -> Result<String, AllocError>
    ensures { IfOk result (λ t. string_bytes t
        ≡ reply_text false (tells_evidence excluded.now (names_seen names.now))) }
{
    let count = excluded.len();
    let mut text = format!(in alloc; "ok {count}\n")?;
    push_evidence(alloc, &mut text, names, excluded)?;
    Ok(text)
}
