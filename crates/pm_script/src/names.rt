// The names that replies give to rules and programs, and why rules are barred.

ghost use Rattle.pm_script.specs.Replies.{names_seen};
ghost use Rattle.std.specs.Prelude.{[], ◌≡◌};

use pm_props::ClientName;
use pm_types::PropId;
use pm_weights::Weight;
use std::alloc::Global;

/// The label and the weight of each rule of the book, by its number, and the names of an object's linear programs, by
/// their places.
#[derive(Drop)]
pub struct Names {
    pub rules: Vec<(ClientName, Weight)>,
    pub subs: Vec<String>,
}

impl Names {
    /// No names.
    pub fn none(alloc: Global) -> Names
        ensures { names_seen result ≡ record { rules = []; programs = [] } }
    {
        Names {
            rules: Vec::new(alloc),
            subs: Vec::new(alloc),
        }
    }
}

/// Why a rule is barred: the first of these that holds.
#[derive(Clone, Copy, PartialEq, Eq)]
pub enum Bar {
    /// It was excluded, as its client failed with evidence of this number.
    Failed(u8),
    /// This precondition of it is held with the wrong value.
    False(PropId),
    /// Its label was disabled.
    Disabled,
    /// No client has its kind.
    NoClient,
}
