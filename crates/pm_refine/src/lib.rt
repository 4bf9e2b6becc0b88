//! The common refinement of two fans: the maximal ones among the intersections of a cone of the first and a cone of
//! the second (Ziegler, Lectures on Polytopes, section 7.1). It knows nothing of rules, clients and sessions.
#![tactic(auto)]

ghost use Rattle.pm_refine.specs.Examples.{FailsAreRead, RefinedAreRead, StepsAreRead};
ghost use Rattle.pm_refine.specs.ObjectExamples.{ObjectsAreRead};

mod cones;
mod fails;
mod keep;
mod object_fails;
mod object_fans;
mod objects;
mod pairs;
mod products;
mod rays;
mod refinement;

pub use fails::RefineFail;
pub use object_fails::RefinementFail;
pub use objects::refine;
pub use refinement::{Intersection, Refinement, common_refinement};

/// Half-planes on the two sides of two lines in the plane, and which of their intersections are kept.
pub fn example_steps()
    ensures { StepsAreRead }
{}

/// The common refinement of the two rays of the line with themselves, and what is none; sets of rays.
pub fn example_refined()
    ensures { RefinedAreRead }
{}

/// What refusals show, and what they do not.
pub fn example_fails()
    ensures { FailsAreRead }
{}

/// The fan {0} of the line as an object: what it is, which conditions fail, and what its refinement is not.
pub fn example_objects()
    ensures { ObjectsAreRead }
{}
