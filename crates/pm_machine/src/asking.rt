// What is asked of an object: values and plans.

ghost use Rattle.pm_client.specs.Meanings.{Narrows, meanings};
ghost use Rattle.pm_rounds.specs.Events.{EnsuredInPart, configuration};
ghost use Rattle.pm_rounds.specs.Reasons.{AreReasons};
ghost use Rattle.pm_machine.specs.Machines.{no_rounds};
ghost use Rattle.pm_rounds.specs.Running.{HasPlace};
ghost use Rattle.pm_machine.specs.Steps.{Ensures, Explains, Gives, asked_in, settled_object};
ghost use Rattle.pm_object.specs.Views.{round_seen};
ghost use Rattle.pm_props.specs.Sets.{only};
ghost use Rattle.pm_props.specs.declared.kind.RuleId.{RuleId};
ghost use Rattle.pm_script.specs.Replies.{explained, names_seen, planned, refused, seen, shows};
ghost use Rattle.pm_telling.specs.Telling.{names_told};
ghost use Rattle.pm_script.specs.declared.names.Bar.{Bar};
ghost use Rattle.pm_types.specs.Views.{view_of};
ghost use Rattle.std.specs.Prelude.{IfOk, List, OnErr, drop, map, string_bytes, ◌⊎◌, ◌≡◌};

use crate::taking::property_named;
use pm_client::Client;
use pm_object::{Object, Round, copy_rounds};
use pm_plan::{Plan, PlanEnd, plan};
use pm_rounds::{Ending, barred_rules, ensure, reasons, table};
use pm_rules::{Book, Table};
use pm_script::{Names, Refusal, Reply};
use pm_telling::names_told;
use pm_types::{ObjectType, PropId, PropSet, Value};
use std::alloc::{AllocError, Global};

/// The properties that the words name for an object of the type, of which this program is asked if one is; None where
/// one names none.
pub fn asked_in(of: ObjectType, sub: Option<u8>, words: &[String]) -> Option<PropSet>
    ensures { result ≡ asked_in of sub (map string_bytes words.now) }
{
    let mut asked = PropSet::empty();
    for word in words {
        let p = property_named(of, sub, word.as_str())?;
        asked = asked.with(p);
    }
    Some(asked)
}

/// The rounds of the object after the first so many.
pub fn rounds_after(alloc: Global, object: &Object, before: usize) -> Result<Vec<Round>, AllocError>
    ensures { IfOk result (λ v. map round_seen v.items
        ≡ drop before object.now.state.rounds) }
{
    let rounds = object.rounds();
    if rounds.len() < before {
        return Ok(Vec::new(alloc));
    }
    let (_, later) = rounds.split_at(before);
    copy_rounds(alloc, later)
}

/// The reply that shows a value that is held.
pub fn show_held(
    alloc: Global,
    name: String,
    of: ObjectType,
    prop: PropId,
    v: &Value,
) -> Result<Reply, AllocError>
    ensures { IfOk result (λ r. seen r ≡ shows (string_bytes name) of prop (view_of v.now) no_rounds) }
{
    show(
        alloc,
        name,
        of,
        prop,
        v,
        Vec::new(alloc),
        Names::none(alloc),
    )
}

// The reply that shows a value, with the rounds that found it.
fn show(
    alloc: Global,
    name: String,
    of: ObjectType,
    prop: PropId,
    v: &Value,
    rounds: Vec<Round>,
    names: Names,
) -> Result<Reply, AllocError>
    ensures { IfOk result (λ r. seen r ≡ shows (string_bytes name) of prop (view_of v.now)
        (record { rounds = map round_seen rounds.items; names = names_seen names })) }
{
    Ok(Reply::Value {
        name,
        of,
        prop,
        value: v.copy(alloc)?,
        rounds,
        names,
    })
}

/// Ensures a property, of this program if one is asked, and shows its value after the name.
#[tactic(auto, using(crate::proofs::Ways::giving_ways))]
pub fn give_value(
    alloc: Global,
    object: &mut Object,
    book: &Book,
    sub: Option<u8>,
    p: PropId,
    name: String,
    clients: &mut Vec<Box<dyn Client>>,
) -> Result<Reply, AllocError>
    requires place { HasPlace sub object.old.state }
    ensures gives { IfOk result (λ r. Gives
        (meanings tally MayPut MayFail clients.old.items) book.now
        (configuration object.old.state (map tally clients.old.items)) sub (string_bytes name) p (seen r)
        (configuration object.new.state (map tally clients.new.items))) }
    ensures err { OnErr result (EnsuredInPart
        (meanings tally MayPut MayFail clients.old.items) book.now sub (only p)
        (configuration object.old.state (map tally clients.old.items))
        (configuration object.new.state (map tally clients.new.items))) }
    ensures narrows { Narrows (meanings tally MayPut MayFail clients.old.items)
        (meanings tally MayPut MayFail clients.new.items) }
{
    let of = object.of();
    let before = object.rounds().len();
    let ending = ensure(alloc, object, book, sub, PropSet::of(p), clients)?;
    let rounds = rounds_after(alloc, object, before)?;
    let names = names_told(alloc, book.rules(), object)?;
    match ending {
        Ending::Found => {
            let Some(v) = object.lookup(sub, p) else {
                unreachable!()
            };
            show(alloc, name, of, p, v, rounds, names)
        }
        Ending::NoChain => Ok(Reply::refused_after(alloc, Refusal::NoChain, false, rounds, names)),
        Ending::Crowded => Ok(Reply::refused_after(alloc, Refusal::Crowded, false, rounds, names)),
    }
}

/// Ensures what is asked, of this program if one is asked, and tells the rounds.
#[tactic(auto, using(crate::proofs::Ways::ensuring_ways))]
pub fn ensure_values(
    alloc: Global,
    object: &mut Object,
    book: &Book,
    sub: Option<u8>,
    asked: PropSet,
    clients: &mut Vec<Box<dyn Client>>,
) -> Result<Reply, AllocError>
    requires place { HasPlace sub object.old.state }
    ensures made { IfOk result (λ r. Ensures
        (meanings tally MayPut MayFail clients.old.items) book.now
        (configuration object.old.state (map tally clients.old.items)) sub asked (seen r)
        (configuration object.new.state (map tally clients.new.items))) }
    ensures err { OnErr result (EnsuredInPart
        (meanings tally MayPut MayFail clients.old.items) book.now sub asked
        (configuration object.old.state (map tally clients.old.items))
        (configuration object.new.state (map tally clients.new.items))) }
    ensures narrows { Narrows (meanings tally MayPut MayFail clients.old.items)
        (meanings tally MayPut MayFail clients.new.items) }
{
    let before = object.rounds().len();
    let ending = ensure(alloc, object, book, sub, asked, clients)?;
    let rounds = rounds_after(alloc, object, before)?;
    let names = names_told(alloc, book.rules(), object)?;
    match ending {
        Ending::Found => Ok(Reply::Ensured { rounds, names }),
        Ending::NoChain => Ok(Reply::refused_after(alloc, Refusal::NoChain, true, rounds, names)),
        Ending::Crowded => Ok(Reply::refused_after(alloc, Refusal::Crowded, true, rounds, names)),
    }
}

// A refusal with the barred rules and the table.
fn refuse_plan(
    alloc: Global,
    book: &Book,
    clients: &[Box<dyn Client>],
    object: &Object,
    sub: Option<u8>,
    why: Refusal,
    table: Table,
) -> Result<Reply, AllocError>
    ensures { IfOk result (λ r. (told : List (RuleId × Bar))
        × AreReasons book.now (map tally clients.now) object.now.state sub told
        × (seen r ≡ refused why (planned told table.rows.items (names_told book.now object.now.state)))) }
{
    let barred = match reasons(alloc, book.rules(), clients, object, sub) {
        Ok(barred) => barred,
        Err(e) => {
            drop(why);
            drop(table);
            return Err(e);
        }
    };
    match names_told(alloc, book.rules(), object) {
        Ok(names) => Ok(Reply::refused_by_plan(alloc, why, barred, table, names)),
        Err(e) => {
            drop(why);
            drop(table);
            Err(e)
        }
    }
}

// The plan, with the names of its rules and of the object's programs.
fn tell_plan(alloc: Global, book: &Book, object: &Object, found: Plan) -> Result<Reply, AllocError>
    ensures { IfOk result (λ r. seen r ≡ explained found.chain.items found.weight
        found.table.rows.items (names_told book.now object.now.state)) }
{
    let names = names_told(alloc, book.rules(), object)?;
    let Plan {
        chain,
        weight,
        table,
    } = found;
    Ok(Reply::Explained {
        chain,
        weight,
        table,
        names,
    })
}

// A least chain on the object to what is asked, with its table; or why there is none.
fn plan_values(
    alloc: Global,
    object: &Object,
    book: &Book,
    sub: Option<u8>,
    asked: PropSet,
    clients: &[Box<dyn Client>],
) -> Result<Reply, AllocError>
    ensures { IfOk result (λ r. Explains book.now (map tally clients.now) object.now.state sub asked
        (seen r)) }
{
    let rules = book.rules();
    let barred = barred_rules(alloc, rules, clients, object, sub)?;
    let names = table(sub, object.of());
    let held = object.names(sub);
    match plan(alloc, book, names, held, &barred, asked) {
        Ok(found) => tell_plan(alloc, book, object, found),
        Err(PlanEnd::NoChain(table)) => {
            refuse_plan(alloc, book, clients, object, sub, Refusal::NoChain, table)
        }
        Err(PlanEnd::Crowded(table)) => {
            refuse_plan(alloc, book, clients, object, sub, Refusal::Crowded, table)
        }
        Err(PlanEnd::Memory) => Err(AllocError),
    }
}

/// Settles the object, and says how what is asked would be found, for this program if one is asked.
pub fn explain_values(
    alloc: Global,
    object: &mut Object,
    book: &Book,
    sub: Option<u8>,
    asked: PropSet,
    clients: &[Box<dyn Client>],
) -> Result<Reply, AllocError>
    ensures explains { IfOk result (λ r. Explains book.now (map tally clients.now)
        (settled_object object.old.state) sub asked (seen r)) }
    ensures settled { IfOk result (λ r. object.new.state ≡ settled_object object.old.state) }
    ensures err { OnErr result ((object.new.state ≡ object.old.state)
        ⊎ (object.new.state ≡ settled_object object.old.state)) }
{
    object.settle(alloc)?;
    plan_values(alloc, object, book, sub, asked, clients)
}
