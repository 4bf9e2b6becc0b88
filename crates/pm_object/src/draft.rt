// What a client answers.

ghost use Rattle.pm_object.specs.Reading.{DraftSeen, drafted, place_in, without};
ghost use Rattle.pm_object.specs.Views.{put_seen};
ghost use Rattle.pm_props.specs.Sets.{has};
ghost use Rattle.pm_types.specs.Views.{view_of};
ghost use Rattle.std.specs.Option.{option_map, option_to_list};
ghost use Rattle.std.specs.Prelude.{IfErr, IfSome, IsTrue, None, OnErr, OnOk, [], length, map, vec_len, ◌+◌, ◌++◌, ◌<◌, ◌∷◌, ◌≡◌};

use pm_types::{Kind, PropId, Value};
use std::alloc::Global;
use std::marker::Model;

/// Values for the targets of a kind, in the order in which they were put.
#[derive(Drop)]
pub struct Draft {
    kind: Kind,
    values: Vec<(PropId, Value)>,
}

impl Model for Draft {
    ghost use Rattle.pm_object.specs.Reading.{DraftSeen};
    ghost use Rattle.pm_object.specs.Views.{put_seen};
    ghost use Rattle.std.specs.Prelude.{map};

    ghost Value = { DraftSeen };

    ghost view = { λ d. record { kind = d.kind; values = map put_seen d.values.items } };
}

impl Draft {
    /// An empty draft for a kind.
    pub fn new(alloc: Global, kind: &Kind) -> Draft
        ensures { result ≡ record { kind = kind.now; values = [] } }
    {
        Draft {
            kind: *kind,
            values: Vec::new(alloc),
        }
    }

    /// The kind that the draft is for.
    pub fn kind(&self) -> Kind
        ensures { result ≡ self.now.kind }
    {
        self.kind
    }

    /// Puts the value of a target that was not put yet. Hands the value back for want of memory; then nothing changes.
    pub fn put(&mut self, p: PropId, v: Value) -> Result<(), Value>
        requires target { IsTrue (has self.old.kind.targets p) }
        requires missing { drafted p self.old.values ≡ None }
        ensures ok { OnOk result
            (self.new ≡ record self.old {
              values = self.old.values
                  ++ record { property = p; value = view_of v } ∷ [];
            }) }
        ensures back { IfErr result (λ w. w ≡ v) }
        ensures err { OnErr result (self.new ≡ self.old) }
    {
        match self.values.push((p, v)) {
            Ok(()) => Ok(()),
            Err(failed) => Err(failed.value.1),
        }
    }

    /// Takes the value of a property out; None exactly where none was put.
    pub fn take_out(&mut self, p: PropId) -> Option<Value>
        ensures value { option_map view_of result ≡ drafted p self.old.values }
        ensures rest { self.new ≡ record self.old { values = without p self.old.values } }
    {
        take_put(&mut self.values, p)
    }
}

/// Takes the first value of a property out of a list of values that were put; None exactly where there is none.
pub fn take_put(values: &mut Vec<(PropId, Value)>, p: PropId) -> Option<Value>
    ensures value { option_map view_of result ≡ drafted p (map put_seen values.old.items) }
    ensures rest { map put_seen values.new.items ≡ without p (map put_seen values.old.items) }
    ensures len { vec_len values.new + length (option_to_list result) ≡ vec_len values.old }
{
    let place = place_of(values, p)?;
    Some(values.remove(place).1)
}

// The place of the first value of a property.
fn place_of(values: &[(PropId, Value)], p: PropId) -> Option<usize>
    ensures value { result ≡ place_in p 0 (map put_seen values.now) }
    ensures within { IfSome result (λ i. i < length values.now) }
{
    for (i, value) in values.iter().enumerate() {
        if value.0 == p {
            return Some(i);
        }
    }
    None
}
