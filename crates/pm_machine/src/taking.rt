// Taking a value from a JSON text.

ghost use Rattle.pm_json.specs.Texts.{Given, given_by, value};
ghost use Rattle.pm_machine.specs.Steps.{TakeValue, Taken, property_named, why_of};
ghost use Rattle.pm_rounds.specs.Running.{HasPlace};
ghost use Rattle.pm_object.specs.State.{CanTake, CannotTake, given_at, is_held, is_sealed_at, read_at, with_held};
ghost use Rattle.pm_types.specs.Forms.{is_formed};
ghost use Rattle.pm_types.specs.Views.{view_of};
ghost use Rattle.std.specs.Prelude.{IfErr, IfNone, IfOk, IfSome, IsTrue, None, OnErr, OnOk, Some, [], false, ◌∷◌, ◌≡◌, ◌≢◌};

use pm_json::{TextFail, ValueFail, read_text};
use pm_object::{Object, TakeFail};
use pm_script::{Refusal, ValueWhy};
use pm_types::{ObjectType, PropId, Value};
use std::alloc::{AllocError, Global};

/// The property of a name in the table of the type, or, where a linear program is asked, in that of programs.
pub fn property_named(of: ObjectType, sub: Option<u8>, text: &str) -> Option<PropId>
    ensures { result ≡ property_named of sub text.now }
{
    match sub {
        None => PropId::named_in(of, text),
        Some(_) => PropId::program_named(text),
    }
}

// The reason of a fault in reading order.
fn why_of(fail: ValueFail) -> Option<ValueWhy>
    ensures { result ≡ why_of fail }
{
    match fail {
        ValueFail::Shape => Some(ValueWhy::Shape),
        ValueFail::Number => Some(ValueWhy::Number),
        ValueFail::Index => Some(ValueWhy::Index),
        ValueFail::Limit => Some(ValueWhy::Limit),
        ValueFail::Memory => None,
    }
}

// Gives a value to the object, or to its program at a place.
fn take_at(object: &mut Object, sub: Option<u8>, p: PropId, v: Value) -> Result<(), TakeFail>
    requires formed { IsTrue (is_formed p (view_of v)) }
    requires place { HasPlace sub object.old.state }
    ensures ok { OnOk result (CanTake object.old.state sub p (view_of v)) }
    ensures added { OnOk result (object.new.state ≡ with_held object.old.state
        (given_at sub p (view_of v) ∷ [])) }
    ensures refused { IfErr result (λ e. e ≢ TakeFail.Memory
        → CannotTake object.old.state sub p (view_of v) e) }
    ensures unchanged { OnErr result (object.new.state ≡ object.old.state) }
{
    match sub {
        None => object.take(p, v),
        Some(place) => object.take_in(place, p, v),
    }
}

// Takes a value that was read, or says why not.
fn take_read(
    object: &mut Object,
    sub: Option<u8>,
    p: PropId,
    v: Value,
) -> Result<Option<Refusal>, AllocError>
    requires formed { IsTrue (is_formed p (view_of v)) }
    requires place { HasPlace sub object.old.state }
    requires missing { is_held p (read_at sub object.old.state.held) ≡ false }
    requires open { is_sealed_at sub object.old.state ≡ false }
    ensures ok { IfOk result (λ why. Taken object.old.state sub p (value (view_of v)) why
        object.new.state) }
    ensures err { OnErr result (object.new.state ≡ object.old.state) }
{
    match take_at(object, sub, p, v) {
        Ok(()) => Ok(None),
        Err(TakeFail::NotOfType) => Ok(Some(Refusal::BadValue(ValueWhy::Computed))),
        Err(TakeFail::Columns) => Ok(Some(Refusal::BadValue(ValueWhy::Columns))),
        Err(TakeFail::NotAThing) => Ok(Some(Refusal::BadValue(ValueWhy::Row))),
        Err(TakeFail::Memory) => Err(AllocError),
        Err(TakeFail::AlreadyHeld) => unreachable!(),
        Err(TakeFail::Sealed) => unreachable!(),
    }
}

// Why the object, or its program at a place, takes no value of a property at all; None where it may take one.
#[tactic(auto, using(crate::proofs::Ways::value_ways))]
fn takes_none(object: &Object, sub: Option<u8>, p: PropId) -> Option<Refusal>
    ensures some { IfSome result (λ why. (g : Given) →
        TakeValue object.now.state sub p g (Some why) None) }
    ensures missing { IfNone result (is_held p (read_at sub object.now.state.held) ≡ false) }
    ensures open { IfNone result (is_sealed_at sub object.now.state ≡ false) }
{
    if object.holds(sub, p) {
        return Some(Refusal::AlreadyHeld);
    }
    if object.is_sealed_at(sub) {
        return Some(Refusal::Sealed);
    }
    None
}

/// Takes the value of a property that a JSON text gives to the object, or to its program at a place, or says why not;
/// then nothing changes.
#[tactic(auto, using(crate::proofs::Ways::value_ways))]
pub fn take_text(
    alloc: Global,
    object: &mut Object,
    sub: Option<u8>,
    p: PropId,
    json: &str,
) -> Result<Option<Refusal>, AllocError>
    requires place { HasPlace sub object.old.state }
    ensures ok { IfOk result (λ why. Taken object.old.state sub p (given_by p json.now) why
        object.new.state) }
    ensures err { OnErr result (object.new.state ≡ object.old.state) }
{
    if let Some(why) = takes_none(object, sub, p) {
        return Ok(Some(why));
    }
    match read_text(alloc, p, json) {
        Ok(v) => take_read(object, sub, p, v),
        Err(TextFail::NotJson) => Ok(Some(Refusal::BadValue(ValueWhy::Json))),
        Err(TextFail::Fault(fail)) => match why_of(fail) {
            Some(why) => Ok(Some(Refusal::BadValue(why))),
            None => Err(AllocError),
        },
    }
}
