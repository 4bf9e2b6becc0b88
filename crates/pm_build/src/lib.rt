//! New objects: the rows of standard polytopes, and of polytopes that are made of others. It knows nothing of rules,
//! clients and sessions.
#![tactic(auto)]

ghost use Rattle.pm_build.specs.Examples.{ConditionsAreRead, ObjectsAreRead, RowsAreRead};
ghost use Rattle.pm_build.specs.Laws.{OthersHaveForms, ShapesHaveForms, SumsHaveForms};
ghost use Rattle.pm_build.specs.SumExamples.{SumsAreRead};

mod building;
mod combined;
mod conditions;
mod fails;
mod reading;
mod rows;
mod shapes;
mod summands;
mod sums;

pub use building::{cross, cube, cyclic, minkowski, polar, product, pyramid, simplex};
pub use fails::SumFail;
pub use pm_object::{BuildFail, Condition};

/// The values of standard polytopes have the forms of values that an object may hold.
pub fn law_shapes_have_forms()
    ensures { ShapesHaveForms }
{}

/// The values of polars, products and pyramids have the forms of values that an object may hold.
pub fn law_others_have_forms()
    ensures { OthersHaveForms }
{}

/// The values of Minkowski sums have the forms of values that an object may hold.
pub fn law_sums_have_forms()
    ensures { SumsHaveForms }
{}

/// Unit vectors, corners and points of the moment curve, and what is none.
pub fn example_rows()
    ensures { RowsAreRead }
{}

/// Which conditions fail, and which of them first.
pub fn example_conditions()
    ensures { ConditionsAreRead }
{}

/// New objects of small numbers and of a segment.
pub fn example_objects()
    ensures { ObjectsAreRead }
{}

/// Sums of points of the line, and what is none; a sum that is too wide; which conditions fail.
pub fn example_sums()
    ensures { SumsAreRead }
{}
