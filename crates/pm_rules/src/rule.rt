// Rules.

ghost use Rattle.std.specs.Prelude.{◌≡◌};

use pm_props::{ClientName, Kind, PropSet};
use pm_weights::Weight;

/// A rule: a client's kind under a label, its weight, and the properties that must be true or false, the kind's own
/// among them.
#[derive(Clone, Copy, PartialEq, Eq)]
pub struct Rule {
    /// The rule's name in its book.
    pub label: ClientName,
    /// The kind of the client that it runs.
    pub kind: Kind,
    /// What it adds to the cost of a chain.
    pub weight: Weight,
    /// The properties that must be true.
    pub must: PropSet,
    /// The properties that must be false.
    pub must_not: PropSet,
}
