//! Clients that find dimensions, null spaces, and one description from its twin, from the other by double description
//! or by placing rays, from both by thinning, from itself by linear programs, or from sets of incidences; and whether
//! a polytope has a point. They know nothing of rounds, commands and sessions.
#![tactic(auto)]

ghost use Rattle.pm_clients_geom.specs.Laws.{FacetsAreThinned, FeasibleHasPoint, VerticesAreThinned};
ghost use Rattle.pm_clients_geom.specs.LostListExamples.{LostListsAreRead};
ghost use Rattle.pm_clients_geom.specs.LostPartsExamples.{LostPartsAreRead};
ghost use Rattle.pm_clients_geom.specs.LostThinnedExamples.{LostThinnedAreRead};
ghost use Rattle.pm_clients_geom.specs.RedundancyExamples.{FailsAreRead, PointsAreRead};
ghost use Rattle.pm_clients_geom.specs.Examples.{HullsAreRead, MatricesAreRead, RaysAreRead, ThinnedAreRead};

mod dims;
mod hulls;
mod lists;
mod placing;
mod points;
mod rays;
mod redundancy;
mod rows;
mod thinning;

pub use dims::{DimClient, DimFamily, DimWork};
pub use hulls::{HullClient, HullFamily, HullWork};
pub use placing::{PlaceClient, PlaceFamily, PlaceWork};
pub use points::has_point;
pub use redundancy::{RedundancyClient, RedundancyFamily, RedundancyWork};
pub use rows::{RowsClient, RowsFamily, RowsWork};
pub use thinning::{ThinClient, ThinFamily, ThinWork};

/// The definitions of matrices that are put, read on small ones.
pub fn example_matrices()
    ensures { MatricesAreRead }
{}

/// The definitions of rays as rows of fractions, read on one ray.
pub fn example_rays()
    ensures { RaysAreRead }
{}

/// The definitions of double description, read on the standard clients and on a view without rows.
pub fn example_hulls()
    ensures { HullsAreRead }
{}

/// The definitions of what is put of thinned rows, read on one row.
pub fn example_thinned()
    ensures { ThinnedAreRead }
{}

/// What is thinned from right POINTS with INPUT_LINEALITY is right for VERTICES and LINEALITY_SPACE.
pub fn law_vertices_are_thinned()
    ensures { VerticesAreThinned }
{}

/// What is thinned from right INEQUALITIES with EQUATIONS is right for FACETS and AFFINE_HULL.
pub fn law_facets_are_thinned()
    ensures { FacetsAreThinned }
{}

/// Whether right INEQUALITIES with EQUATIONS have a point is right for FEASIBLE.
pub fn law_feasible_has_point()
    ensures { FeasibleHasPoint }
{}

/// Which clients thin by linear programs, which asks for a point, and how they fail.
pub fn example_redundancy()
    ensures { FailsAreRead }
{}

/// Inequalities of a line with a point, and without one.
pub fn example_points()
    ensures { PointsAreRead }
{}

/// Rays of a cone whose list is lost by wide numbers, or its extended list, and how the wide clients fail on it.
pub fn example_lost_lists()
    ensures { LostListsAreRead }
{}

/// Rays of a cone that are lost by wide numbers, and how the wide clients that place them fail.
pub fn example_lost_parts()
    ensures { LostPartsAreRead }
{}

/// Points and inequalities whose thinning is lost by wide numbers, sets of rows whose null space is, and how the wide
/// clients fail on them.
pub fn example_lost_thinned()
    ensures { LostThinnedAreRead }
{}
