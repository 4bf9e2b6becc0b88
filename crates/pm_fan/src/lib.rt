//! The dimensions of the cones of a fan, and the normal fan and the face fan of a polytope. It knows nothing of
//! rules, clients and sessions.
#![tactic(auto)]

ghost use Rattle.pm_fan.specs.Examples.{ConditionsAreRead, DimensionsAreRead, FansAreRead, LostConesAreRead};
ghost use Rattle.pm_fan.specs.Laws.{FansHaveForms};

mod building;
mod conditions;
mod cones;
mod dims;
mod rows;

pub use building::{face_fan, normal_fan};
pub use dims::cone_dims;

/// The values of normal fans and face fans have the forms of values that an object may hold.
pub fn law_fans_have_forms()
    ensures { FansHaveForms }
{}

/// Dimensions of small cones, and what is none.
pub fn example_dimensions()
    ensures { DimensionsAreRead }
{}

/// Cones of whose rows the elimination is lost by wide numbers, and cones of whose it is not.
pub fn example_lost_cones()
    ensures { LostConesAreRead }
{}

/// The fans of a square and of a point.
pub fn example_fans()
    ensures { FansAreRead }
{}

/// Which conditions fail, and which of them first.
pub fn example_conditions()
    ensures { ConditionsAreRead }
{}
