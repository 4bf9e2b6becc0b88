//! Optima of objectives at the points of a polytope, and the rays at which they stand. It knows nothing of objects,
//! rules and clients.
#![tactic(auto)]

ghost use Rattle.pm_optima.specs.Examples.{EvidenceIsRead, ObjectivesAreRead, QuotientsAreRead, SensesAreRead};

mod face;
mod objective;
mod products;
mod quotients;
mod rays;

pub use face::places_of_value;
pub use pm_simplex::Sense;
pub use rays::value_at_rays;

/// The greatest value, the least value, and what the opposites are.
pub fn example_senses()
    ensures { SensesAreRead }
{}

/// An objective as a multiple of a row, and the row that vanishes where it has a value.
pub fn example_objectives()
    ensures { ObjectivesAreRead }
{}

/// The greatest quotient, and numbers that tell of a direction without bound.
pub fn example_quotients()
    ensures { QuotientsAreRead }
{}

/// What the evidence of a refusal names.
pub fn example_evidence()
    ensures { EvidenceIsRead }
{}
