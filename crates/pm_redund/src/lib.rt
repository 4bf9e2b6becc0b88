//! Redundant rows by linear programs (Schrijver, Theory of Linear and Integer Programming, section 8.1): the vertices
//! among points, and the facet rows among inequalities. It knows nothing of objects, rules and clients.
#![tactic(auto)]

ghost use Rattle.pm_redund.specs.Examples.{KeepingIsRead, ProgramsAreRead, RedundancyIsRead, RefusalsAreRead};

mod chosen;
mod enough;
mod generated;
mod halves;
mod keep;
mod levels;
mod rays;
mod shot;
mod support;
mod thinned;

pub use halves::thin_rows;
pub use pm_incidence::ThinFail;
pub use rays::thin_rays;

/// The rows of the programs of small rows.
pub fn example_programs()
    ensures { ProgramsAreRead }
{}

/// Redundant rows among three rows of the plane, and rows of its lineality.
pub fn example_redundancy()
    ensures { RedundancyIsRead }
{}

/// Polytopes without a point, and what refusals show.
pub fn example_refusals()
    ensures { RefusalsAreRead }
{}

/// Rows that are met alone on the way from one functional to another, and rows that are needed.
pub fn example_keeping()
    ensures { KeepingIsRead }
{}
