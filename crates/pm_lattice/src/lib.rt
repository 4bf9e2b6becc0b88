//! All intersections of sets of places, by rank: the face lattice of a polytope or cone from the vertices of its
//! facets. It knows nothing of objects, rules and clients.
//!
//! `faces` closes the sets under intersection, each face once (`closure`; `turned`, where the sets are
//! more than the indices), finds the rank of each (`ranks`), and lists them (`lists`). The sets need not
//! come from a polytope: the answer is right for any sets.
#![tactic(auto)]

ghost use Rattle.pm_lattice.specs.Examples.{NoSetsAreRead, PointIsRead, SquareIsRead, UnevenIsRead};
ghost use Rattle.pm_lattice.specs.Laws.{EdgesByOthers, LatticeIsHasseDiagram, MeetsAreFaces};

mod closure;
mod lattice;
mod lists;
mod ranks;
mod turned;

pub use lattice::{LatticeFail, faces};
pub use pm_types::Lattice;

/// Where sets hold exactly the places at which the facet rows vanish, their meets are exactly the faces,
/// and have their ranks.
pub fn law_meets_are_faces()
    ensures { MeetsAreFaces }
{}

/// Where sets hold exactly the places at which the facet rows vanish, their meets by rank are the faces
/// by rank.
pub fn law_lattice_is_hasse_diagram()
    ensures { LatticeIsHasseDiagram }
{}

/// Two places alone are a meet exactly where no third place is in each set that has both.
pub fn law_edges_by_others()
    ensures { EdgesByOthers }
{}

/// The definitions read on the unit square: corners, an edge and the square with their ranks, and a
/// diagonal.
pub fn example_square()
    ensures { SquareIsRead }
{}

/// The definitions read on sets whose meets are not graded.
pub fn example_uneven()
    ensures { UnevenIsRead }
{}

/// The definitions read on a point, whose one facet has no vertex.
pub fn example_point()
    ensures { PointIsRead }
{}

/// The definitions read where there are no sets: on no places, and on two.
pub fn example_no_sets()
    ensures { NoSetsAreRead }
{}
