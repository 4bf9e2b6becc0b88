// What an object holds.

ghost use Rattle.pm_script.specs.Replies.{lists_held, program_seen, seen};
ghost use Rattle.pm_telling.specs.Telling.{held_told, is_own, programs_told, told_there};
ghost use Rattle.std.specs.Prelude.{IfOk, None, OnOk, flat_map, map, ◌++◌, ◌≡◌};

use crate::origins::origin_of;
use pm_object::{Object, Origin};
use pm_script::{ProgramHeld, Reply};
use pm_types::PropId;
use std::alloc::{AllocError, Global};

// Whether values of the property belong to the object itself, or to this program if one is asked.
fn is_own(sub: Option<u8>, p: PropId) -> bool
    ensures { result ≡ is_own sub p }
{
    match sub {
        None => !p.is_of_programs(),
        Some(_) => p.is_of_programs(),
    }
}

// Puts the property behind those that are told, where it is held there.
fn tell(
    told: &mut Vec<(PropId, Origin)>,
    object: &Object,
    sub: Option<u8>,
    p: PropId,
) -> Result<(), AllocError>
    ensures { OnOk result (told.new.items ≡ told.old.items ++ told_there object.now.state sub p) }
{
    if is_own(sub, p) {
        if let Some(origin) = origin_of(object, sub, p) {
            told.push((p, origin))?;
        }
    }
    Ok(())
}

// Those of the properties that are held there, each with how it came to be held.
fn held_among(
    alloc: Global,
    object: &Object,
    sub: Option<u8>,
    properties: &[PropId],
) -> Result<Vec<(PropId, Origin)>, AllocError>
    ensures { IfOk result (λ v. v.items ≡ flat_map (told_there object.now.state sub) properties.now) }
{
    let mut told = Vec::new(alloc);
    for p in properties {
        tell(&mut told, object, sub, *p)?;
    }
    Ok(told)
}

// What each linear program of the object holds.
fn programs_held(alloc: Global, object: &Object) -> Result<Vec<ProgramHeld>, AllocError>
    ensures { IfOk result (λ v. map program_seen v.items ≡ programs_told object.now.state) }
{
    let mut programs = Vec::new(alloc);
    for place in 0..object.programs() {
        programs.push(ProgramHeld {
            name: String::from_str(alloc, object.program_name(place))?,
            held: held_among(alloc, object, Some(place), &PropId::every())?,
        })?;
    }
    Ok(programs)
}

/// What the object holds, and then what each of its linear programs does.
pub fn show_object(alloc: Global, object: &Object) -> Result<Reply, AllocError>
    ensures { IfOk result (λ r. seen r ≡ lists_held object.now.state.of
        (held_told object.now.state None) (programs_told object.now.state)) }
{
    Ok(Reply::Held {
        of: object.of(),
        held: held_among(alloc, object, None, &PropId::every())?,
        programs: programs_held(alloc, object)?,
    })
}
