// Copies of what an object holds.

ghost use Rattle.pm_object.specs.Views.{held_seen, round_seen};
ghost use Rattle.std.specs.Prelude.{IfOk, map, string_bytes, ◌≡◌};

use crate::held::{Excluded, Held, Round, Why};
use std::alloc::{AllocError, Global};

/// The same values.
pub fn copy_held(alloc: Global, held: &[Held]) -> Result<Vec<Held>, AllocError>
    ensures { IfOk result (λ v. map held_seen v.items ≡ map held_seen held.now) }
{
    let mut copies = Vec::new(alloc);
    for h in held {
        copies.push(copy_value(alloc, h)?)?;
    }
    Ok(copies)
}

fn copy_value(alloc: Global, h: &Held) -> Result<Held, AllocError>
    ensures { IfOk result (λ c. held_seen c ≡ held_seen h.now) }
{
    Ok(Held {
        place: h.place,
        id: h.id,
        value: h.value.copy(alloc)?,
        origin: h.origin,
    })
}

/// The same exclusions.
pub fn copy_excluded(alloc: Global, excluded: &[Excluded]) -> Result<Vec<Excluded>, AllocError>
    ensures { IfOk result (λ v. v.items ≡ excluded.now) }
{
    let mut copies = Vec::new(alloc);
    for e in excluded {
        copies.push(copy_exclusion(alloc, e)?)?;
    }
    Ok(copies)
}

/// The same exclusion.
pub fn copy_exclusion(alloc: Global, e: &Excluded) -> Result<Excluded, AllocError>
    ensures { IfOk result (λ c. c ≡ e.now) }
{
    Ok(Excluded {
        rule: e.rule,
        sub: e.sub,
        why: copy_why(alloc, &e.why)?,
    })
}

fn copy_why(alloc: Global, why: &Why) -> Result<Why, AllocError>
    ensures { IfOk result (λ c. c ≡ why.now) }
{
    match why {
        Why::Failed(evidence) => Ok(Why::Failed(evidence.copy(alloc)?)),
        Why::False(p) => Ok(Why::False(*p)),
        Why::Stored(k) => Ok(Why::Stored(*k)),
    }
}

/// The same rounds.
pub fn copy_rounds(alloc: Global, rounds: &[Round]) -> Result<Vec<Round>, AllocError>
    ensures { IfOk result (λ v. map round_seen v.items ≡ map round_seen rounds.now) }
{
    let mut copies = Vec::new(alloc);
    for r in rounds {
        copies.push(copy_round(alloc, r)?)?;
    }
    Ok(copies)
}

fn copy_round(alloc: Global, r: &Round) -> Result<Round, AllocError>
    ensures { IfOk result (λ c. round_seen c ≡ round_seen r.now) }
{
    Ok(Round {
        sub: r.sub,
        weight: r.weight,
        chain: Vec::from_slice(alloc, &r.chain)?,
        end: r.end,
    })
}

/// The same labels.
pub fn copy_labels(alloc: Global, labels: &[String]) -> Result<Vec<String>, AllocError>
    ensures { IfOk result (λ v. map string_bytes v.items ≡ map string_bytes labels.now) }
{
    let mut copies = Vec::new(alloc);
    for label in labels {
        copies.push(String::from_str(alloc, label.as_str())?)?;
    }
    Ok(copies)
}
