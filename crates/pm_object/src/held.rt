// What an object holds, beside the values themselves; and why none is built.

ghost use Rattle.pm_object.specs.State.{is_stored, word_of};
ghost use Rattle.std.specs.Prelude.{◌≡◌};

use pm_geom::Evidence;
use pm_types::{PropId, RuleId, Value};
use pm_weights::Cost;
use std::alloc::{AllocError, AllocFailed};
use thiserror::Error;

/// How a value came to be held.
#[derive(Clone, Copy, PartialEq, Eq)]
pub enum Origin {
    /// It was given, or goes without saying.
    Given,
    /// A rule computed it in an earlier run, and it came with a file.
    Stored,
    /// A rule computed it.
    Computed,
}

impl Origin {
    /// Whether it came with a file that tells that a rule computed it.
    pub fn is_stored(self) -> bool
        ensures { result ≡ is_stored self }
    {
        matches!(self, Origin::Stored)
    }
}

/// A value that is held.
#[derive(Drop)]
pub struct Held {
    /// The linear program that it belongs to; None: the object itself.
    pub place: Option<u8>,
    /// Its property.
    pub id: PropId,
    /// The value.
    pub value: Value,
    /// How it came to be held.
    pub origin: Origin,
}

/// Why a rule was excluded.
#[derive(Drop)]
pub enum Why {
    /// Its client failed with this evidence.
    Failed(Evidence),
    /// This property is held with the wrong value.
    False(PropId),
    /// It failed in an earlier run, with evidence of this number, and the mark came with a file.
    Stored(u8),
}

/// A rule that is not tried again.
#[derive(Drop)]
pub struct Excluded {
    /// The rule.
    pub rule: RuleId,
    /// The linear program for which it is not tried; None: the object, and with it all of its programs.
    pub sub: Option<u8>,
    /// Why.
    pub why: Why,
}

/// How a round ended.
#[derive(Clone, Copy, PartialEq, Eq)]
pub enum RoundEnd {
    /// All rules of the chain were committed.
    Done,
    /// This rule's client failed, with evidence of this number.
    Failed(RuleId, u8),
    /// This rule has a condition that is held with the wrong value.
    False(RuleId, PropId),
}

/// A chain that was started.
#[derive(Drop)]
pub struct Round {
    /// The linear program that was asked, if one was.
    pub sub: Option<u8>,
    /// The chain's weight.
    pub weight: Cost,
    /// The rules of the chain, in turn.
    pub chain: Vec<RuleId>,
    /// How it ended.
    pub end: RoundEnd,
}

/// Why a linear program is not added, in the order in which it is asked.
#[derive(Clone, Copy, Debug, PartialEq, Eq, Error)]
pub enum ProgramFail {
    /// The object is no polytope.
    #[error("the object is no polytope")]
    NotPolytope,
    /// A program of the object has the name.
    #[error("a program has the name")]
    NameTaken,
    /// The object has four programs.
    #[error("the object has four programs")]
    Full,
    /// Memory ran out.
    #[error("out of memory")]
    Memory,
}

/// Why a value is not taken, in the order in which it is asked.
#[derive(Clone, Copy, Debug, PartialEq, Eq, Error)]
pub enum TakeFail {
    /// The property is held.
    #[error("the property is held")]
    AlreadyHeld,
    /// A round was started for the object, or it holds a stored value; a round was started for the program, or it
    /// holds a computed value.
    #[error("the object is sealed")]
    Sealed,
    /// The table of the object's type has no such property; of a program it is not the objective.
    #[error("the property is not of this type")]
    NotOfType,
    /// The columns differ from those of the object.
    #[error("the columns differ")]
    Columns,
    /// A row of the value can be no row of this property.
    #[error("a row is not of a thing")]
    NotAThing,
    /// Memory ran out.
    #[error("out of memory")]
    Memory,
}

/// What is asked before an object is built.
#[derive(Clone, Copy, Debug, PartialEq, Eq)]
pub enum Condition {
    /// Each object that is read is a polytope.
    OfType,
    /// It is bounded.
    Bounded,
    /// It has full dimension.
    FullDim,
    /// 0 lies in its interior.
    Centered,
    /// It is not empty.
    Feasible,
    /// The new object has some columns, and few enough.
    Columns,
    /// It has few enough rows, and each of them can be a row of its property.
    Rows,
    /// The numbers that were asked for are of the sizes that can be built.
    Size,
}

impl Condition {
    /// The word that names it.
    pub fn word(self) -> &'static str
        ensures { result.now ≡ word_of self }
    {
        match self {
            Condition::OfType => "type",
            Condition::Bounded => "BOUNDED",
            Condition::FullDim => "FULL_DIM",
            Condition::Centered => "CENTERED",
            Condition::Feasible => "FEASIBLE",
            Condition::Columns => "columns",
            Condition::Rows => "rows",
            Condition::Size => "size",
        }
    }
}

/// Why an object is not built.
#[derive(Clone, Copy, Debug, PartialEq, Eq, Error)]
pub enum BuildFail {
    /// This is the first condition that does not hold.
    #[error("a condition does not hold")]
    NotFit(Condition),
    /// No memory was left.
    #[error("out of memory")]
    Memory,
}

impl From<AllocError> for BuildFail {
    ghost use Rattle.pm_object.specs.declared.held.BuildFail.TheVariants.{Memory};
    ghost use Rattle.std.specs.Prelude.{◌≡◌};

    ghost from_gives = { λ _ e. e ≡ Memory };

    fn from(_e: AllocError) -> BuildFail {
        BuildFail::Memory
    }
}

impl<T: Drop> From<AllocFailed<T>> for BuildFail {
    ghost use Rattle.pm_object.specs.declared.held.BuildFail.TheVariants.{Memory};
    ghost use Rattle.std.specs.Prelude.{◌≡◌};

    ghost from_gives = { λ _ e. e ≡ Memory };

    fn from(_e: AllocFailed<T>) -> BuildFail {
        BuildFail::Memory
    }
}
