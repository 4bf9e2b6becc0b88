// Kinds of clients, and the numbers of rules.

ghost use Rattle.std.specs.Prelude.{IsTrue, ◌≡◌, ◌≤◌, ◌↔◌, length};
ghost use Rattle.std.specs.List.{list_all};
ghost use Rattle.std.specs.Str.{IsAscii};
ghost use Rattle.pm_props.specs.Kinds.{IsKindOf, conditions_of, finding, is_in_or_unnamed, names_of};

use crate::client_name::ClientName;
use crate::property::PropId;
use crate::set::PropSet;
use pm_object_type::ObjectType;

/// The signature of a client: its name, and the properties that it finds, that it reads, that must be true and that
/// must be false.
#[derive(Clone, Copy, PartialEq, Eq)]
pub struct Kind {
    /// The client's name.
    pub name: ClientName,
    /// What it finds.
    pub targets: PropSet,
    /// What it reads.
    pub sources: PropSet,
    /// What must be true.
    pub must: PropSet,
    /// What must be false.
    pub must_not: PropSet,
}

/// A rule's place in its book, from 0.
#[derive(Clone, Copy, Debug, PartialEq, Eq, PartialOrd, Ord, Hash)]
pub struct RuleId(pub u16);

impl Kind {
    /// The properties that must be true or must be false.
    pub fn conditions(&self) -> PropSet
        ensures { result ≡ conditions_of self.now }
    {
        self.must.union(self.must_not)
    }

    /// All properties that the kind names.
    pub fn names(&self) -> PropSet
        ensures { result ≡ names_of self.now }
    {
        self.targets.union(self.sources.union(self.conditions()))
    }

    /// Whether all properties that the kind names are in use for an object of the type, of which this program is
    /// asked if one is.
    pub fn is_of(&self, sub: Option<u8>, of: ObjectType) -> bool
        ensures { IsTrue result ↔ IsKindOf sub of self.now }
    {
        are_in(sub, of, self.names(), &PropId::every())
    }

    /// The kind of a client that finds these properties from those, under no condition; its name is at most 32 bytes
    /// of ASCII.
    pub fn finding(name: &str, targets: &[PropId], sources: &[PropId]) -> Kind
        requires short { length name.now ≤ 32 }
        requires ascii { IsAscii name.now }
        ensures { result ≡ finding name.now targets.now sources.now }
    {
        Kind {
            name: ClientName::new(name).unwrap(),
            targets: PropSet::of_list(targets),
            sources: PropSet::of_list(sources),
            must: PropSet::empty(),
            must_not: PropSet::empty(),
        }
    }
}

// Whether those of the properties that are in the set are in use.
fn are_in(sub: Option<u8>, of: ObjectType, names: PropSet, properties: &[PropId]) -> bool
    ensures { result ≡ list_all (is_in_or_unnamed sub of names) properties.now }
{
    properties
        .iter()
        .all(|p| !names.contains(*p) || p.is_in_use(sub, of))
}
